ghost use Rattle.std.specs.Prelude.{◌≡◌};
ghost use Rattle.shacl_run.specs.Status.{status_number};

use program_words::NoWords;

/// How a run ended. The program ends with the status's number.
#[derive(Clone, Copy, Debug, PartialEq, Eq)]
pub enum Status {
    /// The data conforms: there is no result.
    Conforms,
    /// There are results.
    Violates,
    /// The words of the command line can't be read; the usage was written.
    BadWords,
    /// A text was refused; its fault was written.
    Refused,
    /// An input failed, and nothing more was written.
    InputFault,
    /// The output failed.
    WriteFault,
    /// An allocation was refused, or the host gave no random bytes for the keys of the terms.
    Memory,
    /// Some lines of the script were refused.
    LinesRefused,
}

impl Status {
    /// The number that the program ends with, from 0 to 7.
    pub fn number(self) -> u8
        ensures { result ≡ status_number self }
    {
        match self {
            Status::Conforms => 0,
            Status::Violates => 1,
            Status::BadWords => 2,
            Status::Refused => 3,
            Status::InputFault => 4,
            Status::WriteFault => 5,
            Status::Memory => 6,
            Status::LinesRefused => 7,
        }
    }
}

/// How a program ends that has no words: for want of memory, or since one of them is no text. Nothing is
/// written then.
impl From<NoWords> for Status {
    ghost use Rattle.shacl_run.specs.Status.{status_without_words};

    ghost from_gives = { λ why status. status ≡ status_without_words why };

    fn from(why: NoWords) -> Status {
        match why {
            NoWords::NoText => Status::BadWords,
            NoWords::Memory => Status::Memory,
        }
    }
}
