ghost use Rattle.std.specs.Prelude.{◌≡◌};
ghost use Rattle.shape_text.specs.Unopened.{beside};

use crate::refusal::Refusal;
use crate::stop::Stop;
use report_write::Answer;
use shx_term::Pool;
use std::alloc::AllocError;

/// Why no validation was opened.
#[derive(Drop)]
pub enum Unopened {
    /// This is told in place of a report; the pool has the terms that it speaks of.
    Told { answer: Answer, pool: Pool },
    /// The run was cut short.
    Cut(Stop),
}

impl Unopened {
    /// A refusal, told beside the pool.
    pub fn of(refusal: Refusal, pool: Pool) -> Unopened
        ensures { result ≡ beside pool refusal }
    {
        match refusal {
            Refusal::Text(answer) => Unopened::Told { answer, pool },
            Refusal::Cut(stop) => Unopened::Cut(stop),
        }
    }
}

impl From<AllocError> for Unopened {
    ghost use Rattle.std.specs.Prelude.{◌≡◌};
    ghost use Rattle.shape_text.specs.declared.stop.Stop.TheVariants.{Memory};
    ghost use Rattle.shape_text.specs.declared.unopened.Unopened.{Unopened};

    ghost from_gives = { λ _ unopened. unopened ≡ Unopened.Cut Memory };

    fn from(_: AllocError) -> Self {
        Unopened::Cut(Stop::Memory)
    }
}
