use shape_refs::ReferenceFault;
use shx_term::Id;
use std::alloc::{AllocError, AllocFailed};

/// Why shapes make no plan.
#[derive(Debug, Drop)]
pub enum CompileFault {
    /// Shapes that reach themselves (SHACL, section 3.4.3), in a ring from the least of all such in term
    /// order: a reference leads from each to the one behind it, and from the last back to the start.
    Recursive { cycle: Vec<Id> },
    /// The least shape in term order from which more references lead on than the limit.
    ReferencesTooDeep { shape: Id },
    /// A pattern that is none: of the first such shape in term order.
    BadPattern { shape: Id },
    /// The first shape in term order whose pattern was not built, though it may be one: the host refused it.
    PatternRefused { shape: Id },
    Memory,
}

impl From<ReferenceFault> for CompileFault {
    ghost use Rattle.std.specs.Prelude.{◌≡◌};
    ghost use Rattle.shape_compile.specs.inner.Faults.{compile_fault};

    ghost from_gives = { λ fault given. given ≡ compile_fault fault };

    fn from(fault: ReferenceFault) -> Self {
        match fault {
            ReferenceFault::Recursive { cycle } => CompileFault::Recursive { cycle },
            ReferenceFault::TooDeep { shape } => CompileFault::ReferencesTooDeep { shape },
            ReferenceFault::Memory => CompileFault::Memory,
        }
    }
}

impl From<AllocError> for CompileFault {
    ghost use Rattle.std.specs.Prelude.{◌≡◌};
    ghost use Rattle.shape_compile.specs.declared.fault.CompileFault.{CompileFault};

    ghost from_gives = { λ _ fault. fault ≡ CompileFault.Memory };

    fn from(_: AllocError) -> Self {
        CompileFault::Memory
    }
}

impl<T: Drop> From<AllocFailed<T>> for CompileFault {
    ghost use Rattle.std.specs.Prelude.{◌≡◌};
    ghost use Rattle.shape_compile.specs.declared.fault.CompileFault.{CompileFault};

    ghost from_gives = { λ _ fault. fault ≡ CompileFault.Memory };

    fn from(_: AllocFailed<T>) -> Self {
        CompileFault::Memory
    }
}
