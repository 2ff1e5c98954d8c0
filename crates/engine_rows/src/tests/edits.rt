//! Edits that are made of an engine, once one look-up after the other was refused.
ghost use Rattle.std.specs.Prelude.{All, IfOk};
ghost use Rattle.shx_term.specs.Edit.{IsValidEdit};

use super::told::{tells, told_by};
use super::watched::Watched;
use edit_engine::{Change, Edit, EditFault, Engine};
use row_tools::{RowFault, cut, number};
use script_lines::{LineFault, read_line};
use shx_term::{Limits, Steps};
use std::alloc::Global;
use std::sync::ledger::Ledger;
use ttl_read::Document;

// How many refusals are tried at most.
const MOST: u64 = 1000;

// The edit of a line of a script behind a data text.
fn edit_of(alloc: Global, document: &Document, line: &str) -> Result<Edit, RowFault>
    ensures { IfOk result IsValidEdit }
{
    match read_line(alloc, line.as_bytes(), document, &Limits::program()) {
        Ok(command) => command.into_edit().ok_or(RowFault::Unread),
        Err(LineFault::Memory) => Err(RowFault::Memory),
        Err(LineFault::Line { .. }) => Err(RowFault::Unread),
    }
}

// The edits of a step, which stand with ` ; ` between them.
fn edits_of(alloc: Global, document: &Document, lines: &str) -> Result<Vec<Edit>, RowFault>
    ensures { IfOk result (λ edits. All IsValidEdit edits.items) }
{
    let mut edits = Vec::new(alloc);
    for line in lines.split(" ; ") {
        edits.push(edit_of(alloc, document, line)?)?;
    }
    Ok(edits)
}

// Whether this came of edits: how many pairs were evaluated, `unchanged`, or the limit that they would pass.
fn is_outcome(outcome: &Result<Change, EditFault>, due: &str) -> Result<bool, RowFault> {
    match outcome {
        Ok(change) if change.changed => Ok(change.evaluated == u64::from(number(due)?)),
        Ok(_) => Ok(due == "unchanged"),
        Err(EditFault::TooManyTriples) => Ok(due == "too many triples"),
        Err(EditFault::TooManyTerms) => Ok(due == "too many terms"),
        Err(EditFault::Memory) => Ok(false),
    }
}

// Whether so many tries are due: a number, or `some`.
fn is_tries(tries: u64, due: &str) -> Result<bool, RowFault> {
    if due == "some" {
        return Ok(tries > 0);
    }
    Ok(tries == u64::from(number(due)?))
}

// Whether this comes of edits once nothing is refused, `OUTCOME after TRIES`, and the engine tells the same
// after each try before.
fn outlasts<K: Ledger, L: Ledger>(
    alloc: Global,
    engine: &mut Engine<Watched>,
    edits: &[Edit],
    due: &str,
    nested: &mut Steps<K>,
    steps: &mut Steps<L>,
) -> Result<bool, RowFault>
    requires { All IsValidEdit edits.now }
{
    let (due, tries) = cut(due, " after ")?;
    let told = told_by(alloc, engine)?;
    for most in 0..MOST {
        engine.view().allow(most);
        match engine.apply_all(alloc, edits, nested, steps) {
            Err(EditFault::Memory) => {
                if !tells(alloc, engine, &told)? {
                    return Ok(false);
                }
            }
            outcome => return Ok(is_outcome(&outcome, due)? && is_tries(most, tries)?),
        }
    }
    Ok(false)
}

/// Whether edits come to what is said of them: `EDITS → OUTCOME after TRIES`.
pub(super) fn are_made<K: Ledger, L: Ledger>(
    alloc: Global,
    engine: &mut Engine<Watched>,
    document: &Document,
    lines: &str,
    due: &str,
    nested: &mut Steps<K>,
    steps: &mut Steps<L>,
) -> Result<bool, RowFault> {
    let edits = edits_of(alloc, document, lines)?;
    outlasts(alloc, engine, &edits, due, nested, steps)
}
