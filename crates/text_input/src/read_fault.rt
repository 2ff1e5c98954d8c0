use shx_outside::Failed;
use std::alloc::AllocError;
use std::error::Error;
use std::fmt;

/// Why a text was not read.
#[derive(Clone, Copy, Debug, PartialEq, Eq)]
pub enum ReadFault {
    /// The text is longer than it may be.
    TooLong,
    /// The inputs failed.
    Input,
    /// Memory was wanting.
    Memory,
}

impl fmt::Display for ReadFault {
    fn fmt<W: fmt::Write>(&self, f: &mut fmt::Formatter<W>) -> fmt::Result {
        match self {
            ReadFault::TooLong => f.write_str("the text is too long"),
            ReadFault::Input => f.write_str("an input failed"),
            ReadFault::Memory => f.write_str("out of memory"),
        }
    }
}

impl Error for ReadFault {}

impl From<Failed> for ReadFault {
    ghost use Rattle.std.specs.Prelude.{◌≡◌};
    ghost use Rattle.text_input.specs.declared.read_fault.ReadFault.{ReadFault};

    ghost from_gives = { λ _ fault. fault ≡ ReadFault.Input };

    fn from(_: Failed) -> Self {
        ReadFault::Input
    }
}

impl From<AllocError> for ReadFault {
    ghost use Rattle.std.specs.Prelude.{◌≡◌};
    ghost use Rattle.text_input.specs.declared.read_fault.ReadFault.{ReadFault};

    ghost from_gives = { λ _ fault. fault ≡ ReadFault.Memory };

    fn from(_: AllocError) -> Self {
        ReadFault::Memory
    }
}
