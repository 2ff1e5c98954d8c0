ghost use Rattle.std.specs.Prelude.{◌≡◌};
ghost use Rattle.shx_outside.specs.declared.pattern_fault.PatternFault.TheVariants.{Memory};

use std::alloc::AllocError;
use std::error::Error;
use std::fmt;

/// Why a pattern was not built.
#[derive(Clone, Copy, Debug, PartialEq, Eq)]
pub enum PatternFault {
    /// The text is no pattern, or it nests too deep.
    NoPattern,
    /// The host refused a pattern that it might have built, and counted that.
    Refused,
    /// Memory was refused.
    Memory,
}

impl From<AllocError> for PatternFault {
    ghost from_gives = { λ _ fault. fault ≡ Memory };

    fn from(_: AllocError) -> PatternFault {
        PatternFault::Memory
    }
}

impl fmt::Display for PatternFault {
    fn fmt<W: fmt::Write>(&self, f: &mut fmt::Formatter<W>) -> fmt::Result {
        match self {
            PatternFault::NoPattern => f.write_str("the text is no pattern"),
            PatternFault::Refused => f.write_str("the pattern was refused"),
            PatternFault::Memory => f.write_str("memory was refused"),
        }
    }
}

impl Error for PatternFault {}
