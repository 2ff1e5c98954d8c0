use crate::stop::Stop;
use report_write::Answer;
use std::alloc::AllocError;

/// Why a text is not taken.
#[derive(Clone, Copy, Debug, PartialEq, Eq)]
pub enum Refusal {
    /// A text is refused, by this answer.
    Text(Answer),
    /// The run was cut short.
    Cut(Stop),
}

impl From<AllocError> for Refusal {
    ghost use Rattle.std.specs.Prelude.{◌≡◌};
    ghost use Rattle.shape_text.specs.declared.refusal.Refusal.{Refusal};
    ghost use Rattle.shape_text.specs.declared.stop.Stop.TheVariants.{Memory};

    ghost from_gives = { λ _ refusal. refusal ≡ Refusal.Cut Memory };

    fn from(_: AllocError) -> Self {
        Refusal::Cut(Stop::Memory)
    }
}
