//! Answers that are told beforehand.
ghost use Rattle.std.specs.Prelude.{IsTrue};
ghost use Rattle.comp_core.specs.Table.{has_pair};

use super::due::Due;
use super::kinds::name_of;
use comp_core::kinds::{MIN_COUNT, NODE_KIND};
use comp_core::{AnswerTable, Answered, Conform, Kind, Pair, ResultRow, ShapeNo};
use graph_view::Reads;
use row_tools::{RowFault, number};
use shx_term::Memory;
use std::alloc::Global;

// Whether the table has an answer for a pair.
fn is_held(answers: &[Answered], pair: &Pair) -> bool
    ensures { IsTrue result → IsTrue (has_pair answers.now pair.now) }
{
    for answered in answers {
        if answered.pair.shape == pair.shape && answered.pair.node == pair.node {
            return true;
        }
    }
    false
}

// Adds the answer of node 70 at a shape, which is one result.
fn tell(
    alloc: Global,
    shape: ShapeNo,
    kind: Kind,
    answers: &mut Vec<Answered>,
) -> Result<(), Memory> {
    let mut rows = Vec::new(alloc);
    rows.push(ResultRow::plain(alloc, 70, None, None, shape, kind)?)?;
    let pair = Pair { shape, node: 70 };
    answers.push(Answered { pair, rows })?;
    Ok(())
}

// The answers of node 70 at the shapes 3 and 4.
fn table(alloc: Global) -> Result<AnswerTable, Memory> {
    let mut answers = Vec::new(alloc);
    tell(alloc, 3, MIN_COUNT, &mut answers)?;
    tell(alloc, 4, NODE_KIND, &mut answers)?;
    Ok(AnswerTable { answers })
}

fn take_told(
    table: &AnswerTable,
    pair: &Pair,
    reads: &mut Reads,
    due: &mut Due,
) -> Result<(), Memory>
    requires { IsTrue (has_pair table.now.answers.items pair.now) }
{
    if table.conforms(pair, reads)? {
        due.take(" conforms");
    }
    for row in table.results(pair, reads)? {
        due.take(" ");
        due.take(name_of(row.kind));
    }
    Ok(())
}

/// Whether a table tells the results that are due of a shape at node 70, of which nothing is read.
pub(super) fn is_told(alloc: Global, of: &str, mut due: Due) -> Result<bool, RowFault> {
    let shape = number(of)?;
    let pair = Pair { shape, node: 70 };
    let table = table(alloc)?;
    let mut reads = Reads::new(alloc);
    if is_held(&table.answers, &pair) {
        take_told(&table, &pair, &mut reads, &mut due)?;
    }
    Ok(due.is_found() && reads.len() == 0)
}
