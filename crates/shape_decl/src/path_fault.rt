use std::alloc::{AllocError, AllocFailed};

/// Why no path is read.
#[derive(Clone, Copy, Debug, PartialEq, Eq)]
pub enum PathFault {
    /// A node has none of the forms of a path.
    Broken,
    /// The nesting, or the number of parts, is past its limit.
    TooDeep,
    Memory,
}

impl From<AllocError> for PathFault {
    ghost use Rattle.std.specs.Prelude.{◌≡◌};
    ghost use Rattle.shape_decl.specs.declared.path_fault.PathFault.{PathFault};

    ghost from_gives = { λ _ fault. fault ≡ PathFault.Memory };

    fn from(_: AllocError) -> Self {
        PathFault::Memory
    }
}

impl<T: Drop> From<AllocFailed<T>> for PathFault {
    ghost use Rattle.std.specs.Prelude.{◌≡◌};
    ghost use Rattle.shape_decl.specs.declared.path_fault.PathFault.{PathFault};

    ghost from_gives = { λ _ fault. fault ≡ PathFault.Memory };

    fn from(_: AllocFailed<T>) -> Self {
        PathFault::Memory
    }
}
