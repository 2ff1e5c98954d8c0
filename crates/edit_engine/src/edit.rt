//! What came of an edit, or why nothing did.
use std::alloc::{AllocError, AllocFailed};
use std::error::Error;
use std::fmt;

/// What came of an edit.
#[derive(Clone, Copy, Debug, PartialEq, Eq)]
pub struct Change {
    /// Whether the graph is another one.
    pub changed: bool,
    /// How many pairs were evaluated.
    pub evaluated: u64,
}

/// Why an edit was refused.
#[derive(Clone, Copy, Debug, PartialEq, Eq)]
pub enum EditFault {
    /// The graph holds as many triples as its limit.
    TooManyTriples,
    /// The pool has no room for the terms of the triple.
    TooManyTerms,
    Memory,
}

impl fmt::Display for EditFault {
    ghost use Rattle.std.specs.Prelude.{Some};
    ghost use Rattle.edit_engine.specs.EditFault.{fault_text};

    ghost output = { λ fault. Some (fault_text fault) };

    fn fmt<W: fmt::Write>(&self, f: &mut fmt::Formatter<W>) -> fmt::Result {
        match self {
            EditFault::TooManyTriples => f.write_str("the graph is full"),
            EditFault::TooManyTerms => f.write_str("the pool is full"),
            EditFault::Memory => f.write_str("out of memory"),
        }
    }
}

impl Error for EditFault {}

impl From<AllocError> for EditFault {
    ghost use Rattle.std.specs.Prelude.{◌≡◌};
    ghost use Rattle.edit_engine.specs.declared.edit.EditFault.{EditFault};

    ghost from_gives = { λ _ fault. fault ≡ EditFault.Memory };

    fn from(_: AllocError) -> Self {
        EditFault::Memory
    }
}

impl<T: Drop> From<AllocFailed<T>> for EditFault {
    ghost use Rattle.std.specs.Prelude.{◌≡◌};
    ghost use Rattle.edit_engine.specs.declared.edit.EditFault.{EditFault};

    ghost from_gives = { λ _ fault. fault ≡ EditFault.Memory };

    fn from(_: AllocFailed<T>) -> Self {
        EditFault::Memory
    }
}
