ghost use Rattle.std.specs.Prelude.{◌≡◌};
ghost use Rattle.shx_term.specs.Limits.{AreUsable};

use super::case::{Case, name_of};
use super::outside::Outside;
use row_tools::RowFault;
use shacl_run::{Status, run};
use shx_outside::{FailingHost, Memory, MemoryInputs, MemorySink, RegexHost};
use shx_term::{Limits, Steps, TermKeys, Text};
use std::alloc::{AllocError, Global};
use std::marker::Brand;
use std::process::Abort;
use std::sync::ledger::{Blank, Ledger};
use std::test::Fail;

/// How a run ended, and the sink with the bytes that it put.
#[derive(Drop)]
struct Ended {
    status: Status,
    sink: MemorySink,
}

impl Ended {
    /// Whether the bytes that are due were put, and the run ended with the status that is due.
    fn is_due(&self, case: &Case) -> bool {
        let bytes = self.sink.bytes();
        let due = case.output.as_bytes();
        let is_put = if case.is_front {
            bytes.len() < due.len() && due.starts_with(bytes)
        } else {
            bytes == due
        };
        is_put && self.status.number() == case.status
    }
}

/// Runs a case in an outside.
fn run_in(alloc: Global, case: &Case, outside: Outside) -> Result<Ended, Memory>
    requires { AreUsable case.now.limits }
{
    let words = texts_of(alloc, case.words)?;
    let mut host = outside.inputs(alloc, case)?;
    let mut sink = outside.sink(alloc)?;
    let mut patterns = outside.patterns(alloc)?;
    let status = run_counted::<Brand, Brand>(
        alloc,
        &words,
        &mut host,
        &mut sink,
        &mut patterns,
        &case.limits,
        Blank::new(1),
        Blank::new(1),
    );
    Ok(Ended { status, sink })
}

/// Words, one a line, as the system would give them.
pub(super) fn texts_of(alloc: Global, words: &str) -> Result<Vec<Text>, Memory> {
    let mut texts = Vec::new(alloc);
    for word in words.lines() {
        texts.push(Text::new(String::from_str(alloc, word)?))?;
    }
    Ok(texts)
}

// Runs with counters of its own.
fn run_counted<L: Ledger, M: Ledger>(
    alloc: Global,
    words: &[Text],
    host: &mut MemoryInputs,
    sink: &mut MemorySink,
    patterns: &mut FailingHost<RegexHost>,
    limits: &Limits,
    steps: Blank,
    nested: Blank,
) -> Status
    requires limits { AreUsable limits.now }
    requires steps_name { steps.name ≡ L.name }
    requires steps_parts { steps.parts ≡ L.parts }
    requires steps_some { steps.parts ≡ 1 }
    requires nested_name { nested.name ≡ M.name }
    requires nested_parts { nested.parts ≡ M.parts }
    requires nested_some { nested.parts ≡ 1 }
{
    let mut steps: Steps<L> = Steps::open(steps);
    let mut nested: Steps<M> = Steps::open(nested);
    run(
        alloc,
        words,
        host,
        sink,
        patterns,
        limits,
        TermKeys::of([0; 16]),
        &mut nested,
        &mut steps,
    )
}

// Whether the run of a block, with the parts that it leaves out from another, ends as it has to, and so do
// the further runs that it asks for.
fn ends_as_due(alloc: Global, block: &str, shared: &str) -> Result<bool, RowFault> {
    let case = Case::of(block, shared)?;
    let outside = Outside::of(case.outside)?;
    for runs in 0..=outside.further {
        if !run_in(alloc, &case, outside.of_further(runs))?.is_due(&case) {
            return Ok(false);
        }
    }
    Ok(true)
}

// The name of the first run of a table that ends in another way than it has to, or nothing.
fn first_other(
    alloc: Global,
    shared: &'static str,
    table: &'static str,
) -> Result<&'static str, Memory> {
    for block in table.split("== run ") {
        if !block.is_empty() {
            match ends_as_due(alloc, block, shared) {
                Ok(true) => {}
                Ok(false) | Err(RowFault::Unread) => return Ok(name_of(block)),
                Err(RowFault::Memory) => return Err(AllocError),
            }
        }
    }
    Ok("")
}

/// Runs a table, and stops the test with the name of the first run that ends in another way than it has to.
pub(super) fn all_end_as_due<R: Abort + AllocGlobal>(
    rt: &R,
    shared: &'static str,
    table: &'static str,
) -> Result<(), Fail> {
    let other = first_other(rt.alloc(), shared, table)?;
    assert_eq!(rt; other, "");
    Ok(())
}
