//! `shacl_keep SHAPES DATA [SCRIPT]`: validates a data text against a shapes text, prints the report as lines
//! or in Turtle, and answers a script line by line.
//!
//! | file | what it holds |
//! |---|---|
//! | `program.rt` | the program over any inputs, sink and pattern host, with the theorem of `run` |
//! | `main.rt` | the program over files and standard output |
//!
//! It stands on `shacl_run`, `command_words`, `program_words`, `shx_outside` and `shx_term`. Start with
//! `program.rt`: `main` only makes the adapters, and ends with the status's number.
#![tactic(auto)]

ghost use Rattle.std.specs.Prelude.{◌≡◌};

mod program;

use program::run_program;
use program_words::read_words;
use shacl_run::Status;
use shx_outside::{FileInputs, RegexHost, StdSink};
use shx_term::{Steps, TermKeys, Text};
use std::fs::File;
use std::marker::Brand;
use std::process::ExitCode;
use std::rt::Files;
use std::sync::ledger::{Blank, Ledger};

fn main(rt: HostRuntime) -> ExitCode {
    let status = match read_words(&rt) {
        Ok(words) => run_on_files(&rt, &words),
        Err(why) => Status::from(why),
    };
    ExitCode::from(status.number())
}

// Where the system gives no random bytes for the keys of terms, nothing is begun. Where standard input is
// closed, a file without bytes stands in its place: else the next file that is opened would, and
// `/dev/stdin` would lead there.
fn run_on_files(rt: &HostRuntime, words: &[Text]) -> Status {
    let _place = File::open(rt, "/dev/null");
    let Ok(keys) = TermKeys::drawn(rt) else {
        return Status::Memory;
    };
    run_counted::<HostRuntime, Brand, Brand>(rt, words, keys, Blank::new(1), Blank::new(1))
}

// Runs over files and standard output, with counters of its own.
fn run_counted<R: Files + Print + AllocGlobal, L: Ledger, M: Ledger>(
    rt: &R,
    words: &[Text],
    keys: TermKeys,
    steps: Blank,
    nested: Blank,
) -> Status
    requires steps_name { steps.name ≡ L.name }
    requires steps_parts { steps.parts ≡ L.parts }
    requires steps_some { steps.parts ≡ 1 }
    requires nested_name { nested.name ≡ M.name }
    requires nested_parts { nested.parts ≡ M.parts }
    requires nested_some { nested.parts ≡ 1 }
{
    let mut steps: Steps<L> = Steps::open(steps);
    let mut nested: Steps<M> = Steps::open(nested);
    let mut host = FileInputs::new(rt);
    let mut out = StdSink::new(rt);
    let mut patterns = RegexHost::new();
    run_program(
        rt.alloc(),
        words,
        &mut host,
        &mut out,
        &mut patterns,
        keys,
        &mut nested,
        &mut steps,
    )
}
