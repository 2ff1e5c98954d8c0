//! Why a line is no command.
ghost use Rattle.std.specs.Prelude.{◌≡◌, None, Some};
ghost use Rattle.script_lines.specs.declared.fault.LineFault.TheVariants.{Line};

use std::alloc::AllocError;
use std::error::Error;
use std::fmt;

/// Why a line is no command: a code, with the place of the fault where it has one.
#[derive(Clone, Copy, Debug, PartialEq, Eq)]
pub enum LineFault {
    Line {
        code: u32,
        /// The byte of the line at which the fault stands, from 0.
        at: Option<u64>,
    },
    Memory,
}

impl LineFault {
    // A fault of the whole line.
    pub(crate) fn of_line(code: u32) -> LineFault
        ensures { result ≡ Line code None }
    {
        LineFault::Line { code, at: None }
    }

    // A fault of a term.
    pub(crate) fn of_term(code: u32, at: u64) -> LineFault
        ensures { result ≡ Line code (Some at) }
    {
        LineFault::Line { code, at: Some(at) }
    }
}

impl fmt::Display for LineFault {
    ghost use Rattle.std.specs.Prelude.{Some};
    ghost use Rattle.script_lines.specs.FaultText.{fault_text};

    ghost output = { λ fault. Some (fault_text fault) };

    fn fmt<W: fmt::Write>(&self, f: &mut fmt::Formatter<W>) -> fmt::Result {
        match self {
            LineFault::Line { code, at: None } => write!(f, "the line is refused with code {code}"),
            LineFault::Line { code, at: Some(at) } => {
                write!(f, "the line is refused with code {code} at byte {at}")
            }
            LineFault::Memory => f.write_str("out of memory"),
        }
    }
}

impl Error for LineFault {}

impl From<AllocError> for LineFault {
    ghost use Rattle.std.specs.Prelude.{◌≡◌};
    ghost use Rattle.script_lines.specs.declared.fault.LineFault.{LineFault};

    ghost from_gives = { λ _ fault. fault ≡ LineFault.Memory };

    fn from(_: AllocError) -> Self {
        LineFault::Memory
    }
}
