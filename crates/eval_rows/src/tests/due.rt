/// What of a text is still due while pieces are found; none where another piece was.
#[derive(Clone, Copy)]
pub(super) struct Due<'a> {
    left: Option<&'a str>,
}

impl<'a> Due<'a> {
    pub(super) fn new(text: &'a str) -> Due<'a> {
        Due { left: Some(text) }
    }

    /// Takes the next piece that is found.
    pub(super) fn take(&mut self, piece: &str) {
        if let Some(left) = self.left {
            self.left = left.strip_prefix(piece);
        }
    }

    /// Whether all was found that is due, but for line feeds at its end.
    pub(super) fn is_found(&self) -> bool {
        match self.left {
            Some(left) => left.trim_end().is_empty(),
            None => false,
        }
    }
}
