//! Steps and a question about the results that are kept after them, with the answer, a row each. A result is
//! a number; a place is the number of a shape and the term of a node.
ghost use Rattle.std.specs.Prelude.{◌≡◌, ◌<◌, All, length, IfOk};

use super::cells::{Verb, verb_of};
use comp_core::ResultRow;
use comp_core::kinds::MIN_COUNT;
use pair_results::PairResults;
use row_tools::{RowFault, all_met, cut, number, term};
use std::alloc::Global;
use std::test::Fail;

/// How many shapes there are.
const SHAPES: u32 = 3;

const ROWS: &str = "
== nothing is kept
rows 0 e:a →
all 0 1 2 →
len → 0
commit; all 0 1 2 →
drop; len → 0

== what is staged shows at the commit alone
stage 1 e:a 5 6; rows 1 e:a →
stage 1 e:a 5 6; all 1 →
stage 1 e:a 5 6; len → 0
stage 1 e:a 5 6; commit; rows 1 e:a → 5 6
stage 1 e:a 5 6; commit; all 1 → 5 6
stage 1 e:a 5 6; commit; len → 2
stage 1 e:a 5; commit; stage 1 e:a 7 8; rows 1 e:a → 5
stage 1 e:a 5; commit; stage 1 e:a; len → 1

== a node of one shape is none of another
stage 1 e:a 5; commit; rows 0 e:a →
stage 1 e:a 5; commit; rows 1 e:b →
stage 1 e:a 5; stage 2 e:a 6; commit; rows 2 e:a → 6

== shape by shape, and by the terms of the nodes
stage 0 'x' 1; stage 0 e:b 2; stage 0 data:n 3; stage 0 e:a 4 5; commit; all 0 → 4 5 2 3 1
stage 0 e:b 1; stage 2 e:a 2; stage 1 e:c 3; commit; all 0 1 2 → 1 3 2
stage 0 e:b 1; stage 2 e:a 2; stage 1 e:c 3; commit; all 2 0 → 2 1
stage 0 e:b 1; stage 2 e:a 2; stage 1 e:c 3; commit; len → 3
stage 0 e:b 1; commit; stage 0 e:a 2; commit; all 0 → 2 1

== results take the place of those that were there
stage 1 e:a 5 6; commit; stage 1 e:a 7; commit; all 1 → 7
stage 1 e:a 5; commit; stage 1 e:a 6 7 8; commit; len → 3
stage 1 e:a 5 6; stage 1 e:b 9; commit; stage 1 e:a; commit; all 1 → 9
stage 1 e:a 5 6; stage 1 e:b 9; commit; stage 1 e:a; commit; len → 1
stage 1 e:a; commit; rows 1 e:a →
stage 1 e:a 5; commit; stage 1 e:a; commit; stage 1 e:a 6; commit; all 1 → 6

== the last change of a place wins
stage 1 e:a 5; stage 1 e:a 6 7; commit; all 1 → 6 7
stage 1 e:a 5; stage 1 e:a 6 7; commit; len → 2
stage 1 e:a 5; stage 1 e:a; commit; all 1 →
stage 1 e:a 5; commit; stage 1 e:a; stage 1 e:a 6; commit; all 1 → 6

== what is dropped leaves no trace
stage 1 e:a 5; drop; commit; all 1 →
stage 1 e:a 5; commit; stage 1 e:a; drop; commit; all 1 → 5
stage 1 e:a 5; commit; stage 1 e:b 6; drop; len → 1
stage 1 e:a 5; drop; stage 1 e:a 6; commit; all 1 → 6

== nothing is staged after a commit
stage 1 e:a 5; commit; stage 1 e:a; commit; commit; len → 0
";

fn is_answered(alloc: Global, row: &str) -> Result<bool, RowFault> {
    let (steps, answer) = cut(row, " →")?;
    let (before, question) = steps.rsplit_once("; ").unwrap_or(("", steps));
    let mut kept = PairResults::new(alloc, SHAPES)?;
    make_all(alloc, &mut kept, before)?;
    answers(alloc, &kept, question, answer.trim_start())
}

fn make_all(alloc: Global, kept: &mut PairResults, steps: &str) -> Result<(), RowFault>
    requires { length kept.old.shapes ≡ 3 }
    ensures { length kept.new.shapes ≡ 3 }
{
    for step in steps.split("; ") {
        if !step.is_empty() {
            make(alloc, kept, step)?;
        }
    }
    Ok(())
}

fn make(alloc: Global, kept: &mut PairResults, step: &str) -> Result<(), RowFault>
    requires { length kept.old.shapes ≡ 3 }
    ensures { length kept.new.shapes ≡ 3 }
{
    let (verb, of) = verb_of(step)?;
    match verb {
        Verb::Stage => stage(alloc, kept, of),
        Verb::Commit => {
            kept.commit();
            Ok(())
        }
        Verb::Drop => {
            kept.drop_staged();
            Ok(())
        }
        _ => Err(RowFault::Unread),
    }
}

fn stage(alloc: Global, kept: &mut PairResults, of: &str) -> Result<(), RowFault>
    requires { length kept.old.shapes ≡ 3 }
    ensures { length kept.new.shapes ≡ 3 }
{
    let (shape, rest) = cut(of, " ")?;
    let (node, numbers) = rest.split_once(' ').unwrap_or((rest, ""));
    let shape = shape_of(shape)?;
    let node = term(alloc, node)?;
    let rows = rows_of(alloc, shape, numbers)?;
    Ok(kept.stage(alloc, shape, &node, rows)?)
}

/// A result for each of the numbers.
pub(super) fn rows_of(
    alloc: Global,
    shape: u32,
    numbers: &str,
) -> Result<Vec<ResultRow>, RowFault> {
    let mut rows = Vec::new(alloc);
    for word in numbers.split(' ') {
        if !word.is_empty() {
            let value = Some(number(word)?);
            rows.push(ResultRow::plain(alloc, 0, value, None, shape, MIN_COUNT)?)?;
        }
    }
    Ok(rows)
}

fn shape_of(word: &str) -> Result<u32, RowFault>
    ensures { IfOk result (λ shape. shape < 3) }
{
    let shape = number(word)?;
    if shape < SHAPES {
        Ok(shape)
    } else {
        Err(RowFault::Unread)
    }
}

/// The numbers that are due, from here on.
#[derive(Clone, Copy)]
pub(super) struct Due<'a> {
    rest: &'a str,
    are_met: bool,
}

impl<'a> Due<'a> {
    pub(super) fn of(rest: &'a str) -> Due<'a> {
        Due {
            rest,
            are_met: true,
        }
    }

    /// Takes the next result, whose number is to be the next one.
    pub(super) fn take(&mut self, row: &ResultRow) {
        let (word, behind) = self.rest.split_once(' ').unwrap_or((self.rest, ""));
        self.are_met = self.are_met && row.value.is_some() && number(word).ok() == row.value;
        self.rest = behind;
    }

    pub(super) fn are_all_met(&self) -> bool {
        self.are_met && self.rest.is_empty()
    }
}

fn answers(
    alloc: Global,
    kept: &PairResults,
    question: &str,
    answer: &str,
) -> Result<bool, RowFault>
    requires { length kept.now.shapes ≡ 3 }
{
    let (verb, of) = verb_of(question)?;
    match verb {
        Verb::Rows => are_rows(alloc, kept, of, answer),
        Verb::All => are_all(alloc, kept, of, answer),
        Verb::Len => Ok(kept.len() == u64::from(number(answer)?)),
        _ => Err(RowFault::Unread),
    }
}

// Whether these are the results of a shape and a node.
fn are_rows(alloc: Global, kept: &PairResults, of: &str, rest: &str) -> Result<bool, RowFault>
    requires { length kept.now.shapes ≡ 3 }
{
    let (shape, node) = cut(of, " ")?;
    let node = term(alloc, node)?;
    let shape = shape_of(shape)?;
    let mut due = Due::of(rest);
    for row in kept.rows_of(shape, &node) {
        due.take(row);
    }
    Ok(due.are_all_met())
}

fn shapes_of(alloc: Global, words: &str) -> Result<Vec<u32>, RowFault>
    ensures { IfOk result (λ shapes. All (λ shape. shape < 3) shapes.items) }
{
    let mut shapes = Vec::new(alloc);
    for word in words.split(' ') {
        shapes.push(shape_of(word)?)?;
    }
    Ok(shapes)
}

// Whether these are the results of shapes.
fn are_all(alloc: Global, kept: &PairResults, words: &str, rest: &str) -> Result<bool, RowFault>
    requires { length kept.now.shapes ≡ 3 }
{
    let shapes = shapes_of(alloc, words)?;
    let mut due = Due::of(rest);
    for row in kept.rows(&shapes) {
        due.take(row);
    }
    Ok(due.are_all_met())
}

#[test]
fn results_are_as_said(rt: HostRuntime) -> Result<(), Fail> {
    all_met(rt.alloc(), ROWS, is_answered)
}
