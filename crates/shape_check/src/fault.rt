//! What is told of shapes that break a rule.
use shx_term::Id;
use std::alloc::{AllocError, AllocFailed};

/// Which rule is broken, and by which term of which shape.
#[derive(Clone, Copy, Debug, PartialEq, Eq)]
pub struct ShapeFault {
    /// The code of a [`Rule`](crate::Rule), or `TOO_MANY_SHAPES`.
    pub code: u32,
    /// The shape; of too many, the first past the limit, in term order.
    pub shape: Id,
    /// The predicate whose value is at fault; `None` where there are too many shapes.
    pub predicate: Option<Id>,
    /// The value, or the member of a list.
    pub term: Option<Id>,
}

/// Why shapes were not accepted.
#[derive(Clone, Copy, Debug, PartialEq, Eq)]
pub enum CheckFault {
    Shape(ShapeFault),
    Memory,
}

impl From<AllocError> for CheckFault {
    ghost use Rattle.std.specs.Prelude.{◌≡◌};
    ghost use Rattle.shape_check.specs.declared.fault.CheckFault.{CheckFault};

    ghost from_gives = { λ _ fault. fault ≡ CheckFault.Memory };

    fn from(_: AllocError) -> Self {
        CheckFault::Memory
    }
}

impl<T: Drop> From<AllocFailed<T>> for CheckFault {
    ghost use Rattle.std.specs.Prelude.{◌≡◌};
    ghost use Rattle.shape_check.specs.declared.fault.CheckFault.{CheckFault};

    ghost from_gives = { λ _ fault. fault ≡ CheckFault.Memory };

    fn from(_: AllocFailed<T>) -> Self {
        CheckFault::Memory
    }
}
