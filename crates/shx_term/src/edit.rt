use crate::TermTriple;

/// What is asked of a graph: that it holds a triple from now on, or that it does not.
#[derive(Debug)]
pub enum Edit {
    Insert(TermTriple),
    Remove(TermTriple),
}

// A derived drop is no call: each place where an edit ends would split into one path for each edit.
impl Drop for Edit {
    fn drop(self) {
        match self {
            Edit::Insert(_triple) | Edit::Remove(_triple) => {}
        }
    }
}
