ghost use Rattle.std.specs.Prelude.{◌≡◌};

use super::holds;
use shx_term::{Limits, Steps};
use std::marker::Brand;
use std::sync::ledger::{Blank, Ledger};
use std::test::Fail;

#[test]
fn the_program_has_its_limits() -> Result<(), Fail> {
    let limits = Limits::program();
    holds(Ok(
        limits.triples == 4_000_000
            && limits.line == 65_536
            && limits.group == 10_000
            && limits.history == 100,
    ))
}

fn ticked_twice<L: Ledger>(blank: Blank) -> Steps<L>
    requires name { blank.name ≡ L.name }
    requires parts { blank.parts ≡ L.parts }
    requires some { blank.parts ≡ 1 }
    ensures { result ≡ 2 }
{
    let mut steps = Steps::open(blank);
    steps.tick();
    steps.tick();
    steps
}

fn count_two<L: Ledger>(blank: Blank)
    requires name { blank.name ≡ L.name }
    requires parts { blank.parts ≡ L.parts }
    requires some { blank.parts ≡ 1 }
{
    let _steps: Steps<L> = ticked_twice(blank);
}

#[test]
fn steps_are_counted() {
    count_two::<Brand>(Blank::new(1));
}
