use std::alloc::{AllocError, AllocFailed};
use std::error::Error;
use std::fmt;

/// Why a reference was not resolved.
#[derive(Clone, Copy, Debug, PartialEq, Eq)]
pub enum IriFault {
    /// The reference has a character that may not stand in an IRI.
    NotAllowed,
    Memory,
}

impl fmt::Display for IriFault {
    ghost use Rattle.std.specs.Prelude.{Some};
    ghost use Rattle.iri_resolve.specs.Fault.{fault_text};

    ghost output = { λ fault. Some (fault_text fault) };

    fn fmt<W: fmt::Write>(&self, f: &mut fmt::Formatter<W>) -> fmt::Result {
        match self {
            IriFault::NotAllowed => {
                f.write_str("the reference has a character that an IRI may not have")
            }
            IriFault::Memory => f.write_str("out of memory"),
        }
    }
}

impl Error for IriFault {}

impl From<AllocError> for IriFault {
    ghost use Rattle.std.specs.Prelude.{◌≡◌};
    ghost use Rattle.iri_resolve.specs.declared.fault.IriFault.{IriFault};

    ghost from_gives = { λ _ fault. fault ≡ IriFault.Memory };

    fn from(_: AllocError) -> Self {
        IriFault::Memory
    }
}

impl<T: Drop> From<AllocFailed<T>> for IriFault {
    ghost use Rattle.std.specs.Prelude.{◌≡◌};
    ghost use Rattle.iri_resolve.specs.declared.fault.IriFault.{IriFault};

    ghost from_gives = { λ _ fault. fault ≡ IriFault.Memory };

    fn from(_: AllocFailed<T>) -> Self {
        IriFault::Memory
    }
}
