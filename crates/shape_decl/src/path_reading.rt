use path_eval::LaidPath;

/// What is read where a path is expected.
#[derive(Debug)]
pub enum PathReading {
    Path(LaidPath),
    /// A node inside it has none of the forms of a path.
    Broken,
    /// Its nesting, or the number of its parts, is past its limit.
    TooDeep,
}

impl Drop for PathReading {
    fn drop(self) {
        match self {
            PathReading::Path(_path) => {}
            PathReading::Broken => {}
            PathReading::TooDeep => {}
        }
    }
}
