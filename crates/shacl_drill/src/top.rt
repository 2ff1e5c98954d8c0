ghost use Rattle.std.specs.Prelude.{◌≡◌, ◌≤◌, ℕ, List, IfOk};
ghost use Rattle.shx_outside.specs.MemorySink.{sink_told};
ghost use Rattle.shx_outside.specs.declared.flags.Flags.{Flags};
ghost use Rattle.shacl_drill.specs.Clauses.{IsDrill, Tells, surroundings};
ghost use Rattle.shacl_drill.specs.Summary.{summary, usage_text};
ghost use Rattle.shacl_drill.specs.inner.Ran.{IsRanOver};
ghost use Rattle.shacl_drill.specs.inner.Told.{SumsUp, TellsEnd};

use crate::size::size_of;
use crate::summary::{write_summary, write_usage};
use crate::tally::Tally;
use crate::texts::{named_texts, run_words};
use shacl_run::{Status, run};
use shx_outside::{HonestInputs, MemorySink, PatternHost, Sink};
use shx_term::{Limits, Memory, Steps, TermKeys, Text};
use std::alloc::Global;
use std::sync::ledger::Ledger;

// How many bytes a read of the inputs gives at most, and a put of the sink takes.
const PIECE: usize = 65_536;

/// Makes the shapes, the data and the script of a circle of as many nodes as the words ask for, runs over
/// them in memory, and writes one line that sums up what the run wrote: how many edits were answered, how
/// many of them changed the graph, how many pairs were evaluated for them, what was counted last, and the
/// number of the run's status. It takes time and memory linear in the nodes beside those of the run.
///
/// It answers `Conforms` behind the summary, `BadWords` behind the usage, `Refused` where the run refused a
/// text, `WriteFault` where `out` failed, and `Memory`.
pub fn drill<O: Sink, P: PatternHost, L: Ledger, M: Ledger>(
    alloc: Global,
    words: &[Text],
    out: &mut O,
    patterns: &mut P,
    keys: TermKeys,
    nested: &mut Steps<M>,
    steps: &mut Steps<L>,
) -> Status
    requires patterns { (flags : Flags) (text : List ℕ) → P.admits patterns.old flags text }
    ensures { IsDrill words.now
        (surroundings (O.state out.old) (P.state patterns.old) nested.old steps.old)
        (surroundings (O.state out.new) (P.state patterns.new) nested.new steps.new) result }
{
    let Some(size) = size_of(words) else {
        return tell_usage(out);
    };
    let mut sink = MemorySink::new(alloc, PIECE, Vec::new(alloc));
    match run_over(alloc, size, &mut sink, patterns, keys, nested, steps) {
        Ok(ended) => tell(size, ended, sink.bytes(), out),
        Err(_) => Status::Memory,
    }
}

fn tell_usage<O: Sink>(out: &mut O) -> Status
    ensures { Tells usage_text Status.BadWords (O.state out.old) (O.state out.new) result }
{
    match write_usage(out) {
        Ok(()) => Status::BadWords,
        Err(_) => Status::WriteFault,
    }
}

// Runs over the texts of so many nodes.
fn run_over<P: PatternHost, L: Ledger, M: Ledger>(
    alloc: Global,
    size: u64,
    sink: &mut MemorySink,
    patterns: &mut P,
    keys: TermKeys,
    nested: &mut Steps<M>,
    steps: &mut Steps<L>,
) -> Result<Status, Memory>
    requires size { (1 ≤ size) × (size ≤ 100000) }
    requires patterns { (flags : Flags) (text : List ℕ) → P.admits patterns.old flags text }
    ensures ran { IfOk result (IsRanOver size
        (surroundings (sink_told sink.old) (P.state patterns.old) nested.old steps.old)
        (surroundings (sink_told sink.new) (P.state patterns.new) nested.new steps.new)) }
{
    let words = run_words(alloc)?;
    let mut inputs = HonestInputs::new(named_texts(alloc, size)?, PIECE);
    let limits = Limits::program();
    Ok(run(
        alloc,
        &words,
        &mut inputs,
        sink,
        patterns,
        &limits,
        keys,
        nested,
        steps,
    ))
}

// Tells of a run that ended so behind this output.
fn tell<O: Sink>(size: u64, ended: Status, output: &[u8], out: &mut O) -> Status
    ensures { TellsEnd size ended output.now (O.state out.old) (O.state out.new) result }
{
    match ended {
        Status::Conforms | Status::Violates | Status::LinesRefused => {
            sum_up(size, ended.number(), output, out)
        }
        Status::Refused => Status::Refused,
        Status::BadWords | Status::InputFault | Status::WriteFault | Status::Memory => {
            Status::Memory
        }
    }
}

fn sum_up<O: Sink>(size: u64, status: u8, output: &[u8], out: &mut O) -> Status
    ensures { SumsUp (summary size output.now status) (O.state out.old) (O.state out.new) result }
{
    let Some(tally) = Tally::of(output) else {
        return Status::Memory;
    };
    match write_summary(size, &tally, status, out) {
        Ok(()) => Status::Conforms,
        Err(_) => Status::WriteFault,
    }
}
