use shx_term::Id;
use std::alloc::{AllocError, AllocFailed};

/// Why shapes have no order that may be used.
#[derive(Debug, Drop)]
pub enum ReferenceFault {
    /// Distinct shapes in a ring: a reference leads from each to the one behind it, and from the last back to
    /// the start. That is the least, in term order, of all that reach themselves (SHACL, section 3.4.3).
    Recursive { cycle: Vec<Id> },
    /// The least shape in term order from which more references lead on than the limit, where none reaches
    /// itself.
    TooDeep { shape: Id },
    Memory,
}

impl From<AllocError> for ReferenceFault {
    ghost use Rattle.std.specs.Prelude.{◌≡◌};
    ghost use Rattle.shape_refs.specs.declared.fault.ReferenceFault.{ReferenceFault};

    ghost from_gives = { λ _ fault. fault ≡ ReferenceFault.Memory };

    fn from(_: AllocError) -> Self {
        ReferenceFault::Memory
    }
}

impl<T: Drop> From<AllocFailed<T>> for ReferenceFault {
    ghost use Rattle.std.specs.Prelude.{◌≡◌};
    ghost use Rattle.shape_refs.specs.declared.fault.ReferenceFault.{ReferenceFault};

    ghost from_gives = { λ _ fault. fault ≡ ReferenceFault.Memory };

    fn from(_: AllocFailed<T>) -> Self {
        ReferenceFault::Memory
    }
}
