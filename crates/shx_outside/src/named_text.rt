use crate::{Bytes, Name};

/// A text that is held in memory, with the name that it is opened by.
#[derive(Debug, Drop)]
pub struct NamedText {
    pub name: Name,
    pub bytes: Bytes,
}
