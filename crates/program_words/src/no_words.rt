use std::error::Error;
use std::fmt;

/// Why a program has no words.
#[derive(Clone, Copy, Debug, PartialEq, Eq)]
pub enum NoWords {
    /// One of them is no text in UTF-8.
    NoText,
    /// An allocation was refused.
    Memory,
}

impl fmt::Display for NoWords {
    fn fmt<W: fmt::Write>(&self, f: &mut fmt::Formatter<W>) -> fmt::Result {
        match self {
            NoWords::NoText => f.write_str("a word is no text"),
            NoWords::Memory => f.write_str("memory is wanting"),
        }
    }
}

impl Error for NoWords {}
