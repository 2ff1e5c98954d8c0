//! A run over inputs that never fail, and a sink that was given room for what is due.
ghost use Rattle.std.specs.Prelude.{◌≡◌};
ghost use Rattle.shx_term.specs.Limits.{AreUsable};

use super::case::Case;
use super::failures::FIRST_RUN;
use super::outside::files_of;
use super::runs::texts_of;
use row_tools::RowFault;
use shacl_run::{Status, run};
use shx_outside::{HonestInputs, HonestSink, Memory, RegexHost, Roomy};
use shx_term::{Limits, Steps, TermKeys, Text};
use std::alloc::Global;
use std::marker::Brand;
use std::sync::ledger::{Blank, Ledger};
use std::test::Fail;

// Runs with counters of its own.
fn run_honestly<L: Ledger, M: Ledger>(
    alloc: Global,
    words: &[Text],
    host: &mut HonestInputs,
    sink: &mut Roomy,
    limits: &Limits,
    steps: Blank,
    nested: Blank,
) -> Status
    requires limits { AreUsable limits.now }
    requires steps_name { steps.name ≡ L.name }
    requires steps_parts { steps.parts ≡ L.parts }
    requires steps_some { steps.parts ≡ 1 }
    requires nested_name { nested.name ≡ M.name }
    requires nested_parts { nested.parts ≡ M.parts }
    requires nested_some { nested.parts ≡ 1 }
{
    let mut steps: Steps<L> = Steps::open(steps);
    let mut nested: Steps<M> = Steps::open(nested);
    let mut patterns = RegexHost::new();
    run(
        alloc,
        words,
        host,
        sink,
        &mut patterns,
        limits,
        TermKeys::of([0; 16]),
        &mut nested,
        &mut steps,
    )
}

// Runs a case over such inputs and such a sink.
fn run_in_room(
    alloc: Global,
    case: &Case,
    host: &mut HonestInputs,
    sink: &mut Roomy,
) -> Result<Status, Memory>
    requires { AreUsable case.now.limits }
{
    let words = texts_of(alloc, case.words)?;
    let status = run_honestly::<Brand, Brand>(
        alloc,
        &words,
        host,
        sink,
        &case.limits,
        Blank::new(1),
        Blank::new(1),
    );
    Ok(status)
}

// Whether a case ends as it has to, in pieces of so many bytes, where the sink has so much room.
fn ends_with_room(alloc: Global, case: &Case, piece: usize, room: usize) -> Result<bool, RowFault>
    requires { AreUsable case.now.limits }
{
    if piece == 0 {
        return Err(RowFault::Unread);
    }
    let mut held = HonestSink::new(alloc, piece);
    held.reserve(room)?;
    let mut sink = Roomy::new(held);
    let mut host = HonestInputs::new(files_of(alloc, case)?, piece);
    let status = run_in_room(alloc, case, &mut host, &mut sink)?;
    Ok(sink.bytes() == case.output.as_bytes() && status.number() == case.status)
}

#[test]
fn room_for_what_is_due_is_enough(rt: HostRuntime) -> Result<(), Fail> {
    let case = Case::of("", FIRST_RUN)?;
    let due = case.output.len();
    if !ends_with_room(rt.alloc(), &case, 1, due)?
        || !ends_with_room(rt.alloc(), &case, 4096, due)?
    {
        return Err(Fail::new("it ends otherwise"));
    }
    if ends_with_room(rt.alloc(), &case, 7, due.saturating_sub(1))? {
        return Err(Fail::new("it ends well with less room"));
    }
    Ok(())
}
