//! `shacl_drill N`: validates a circle of N nodes in memory, marks each node by a line of a script, and
//! prints one line that sums up what the run wrote.
//!
//! | file | what it holds |
//! |---|---|
//! | `top.rt` | `drill`: the drill over any output and pattern host, with its theorem |
//! | `size.rt` | how many nodes the words ask for |
//! | `texts.rt` | the three texts of a drill, and the words that name them |
//! | `tally.rt` | `Tally`: what the lines that a run wrote say of its edits |
//! | `summary.rt` | the summary, and the usage |
//! | `main.rt` | the drill into standard output |
//!
//! It stands on `shacl_run`, on `shx_outside` for texts and an output in memory, on `text_output` and
//! `text_input`, and on `program_words`. Start with `top.rt`; `specs/Clauses.antt` says what a drill
//! promises, `specs/Texts.antt` over which texts it runs, and `specs/Summary.antt` what it prints.
#![tactic(auto)]

ghost use Rattle.std.specs.Prelude.{◌≡◌};

mod size;
mod summary;
mod tally;
mod texts;
mod top;

use program_words::read_words;
use shacl_run::Status;
use shx_outside::{RegexHost, StdSink};
use shx_term::{Steps, TermKeys, Text};
use std::marker::Brand;
use std::process::ExitCode;
use std::sync::ledger::{Blank, Ledger};
use top::drill;

fn main(rt: HostRuntime) -> ExitCode {
    let status = match read_words(&rt) {
        Ok(words) => drill_out(&rt, &words),
        Err(why) => Status::from(why),
    };
    ExitCode::from(status.number())
}

// Where the system gives no random bytes for the keys of terms, nothing is begun.
fn drill_out(rt: &HostRuntime, words: &[Text]) -> Status {
    let Ok(keys) = TermKeys::drawn(rt) else {
        return Status::Memory;
    };
    drill_counted::<HostRuntime, Brand, Brand>(rt, words, keys, Blank::new(1), Blank::new(1))
}

// Drills into standard output, with counters of its own.
fn drill_counted<R: Print + AllocGlobal, L: Ledger, M: Ledger>(
    rt: &R,
    words: &[Text],
    keys: TermKeys,
    steps: Blank,
    nested: Blank,
) -> Status
    requires steps_name { steps.name ≡ L.name }
    requires steps_parts { steps.parts ≡ L.parts }
    requires steps_some { steps.parts ≡ 1 }
    requires nested_name { nested.name ≡ M.name }
    requires nested_parts { nested.parts ≡ M.parts }
    requires nested_some { nested.parts ≡ 1 }
{
    let mut steps: Steps<L> = Steps::open(steps);
    let mut nested: Steps<M> = Steps::open(nested);
    let mut out = StdSink::new(rt);
    let mut patterns = RegexHost::new();
    drill(
        rt.alloc(),
        words,
        &mut out,
        &mut patterns,
        keys,
        &mut nested,
        &mut steps,
    )
}
