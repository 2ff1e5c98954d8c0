//! Steps and a question about what is remembered after them, with the answer, a row each. A pair is the
//! numbers of its shape and of its node. What is remembered of it is results, which are numbers, and behind a
//! bar the keys that they were read from; of the answer of a pair the key is that pair. What was read in all
//! is asked by `all`.
ghost use Rattle.std.specs.Prelude.{◌≡◌, OnOk};
ghost use Rattle.std.specs.List.{IsDistinct, list_any};
ghost use Rattle.std.specs.Map.{keys_of};
ghost use Rattle.comp_core.specs.Pairs.{same_pair};

use super::cells::{Change, Verb, are_pairs, are_said, pair, reads, triple, verb_of};
use super::results::{Due, rows_of};
use comp_core::{Pair, PairAnswer, Recalled, ResultRow};
use graph_view::Reads;
use read_records::Recall;
use row_tools::{RowFault, all_met, cut, number};
use std::alloc::Global;
use std::test::Fail;

const ROWS: &str = "
== nothing is remembered
find 1/7 → nothing
len → 0
mask 1.2.3; find 1/7 → nothing
mask 1.2.3; commit; len → 0
commit; drop; find 1/7 → nothing

== what is staged is remembered at once, and kept from the commit on
stage 1/7 5 6 | 1.2._; find 1/7 → 5 6 | 1.2._
stage 1/7 5 6 | 1.2._; len → 0
stage 1/7 5 6 | 1.2._ 5._._; commit; find 1/7 → 5 6 | 5._._ 1.2._
stage 1/7 5 6 | 1.2._; commit; len → 1
stage 1/7 |; find 1/7 → |
stage 1/7 |; commit; find 1/7 → |
stage 1/7 |; commit; len → 1
stage 0/4294967295 5 | _.2._; commit; commit; find 0/4294967295 → 5 | _.2._

== a pair is told by its shape and its node
stage 1/7 5 | 1.2._; find 1/8 → nothing
stage 1/7 5 | 1.2._; commit; find 2/7 → nothing
stage 1/7 5 | 1.2._; stage 2/7 6 | _.2._; commit; find 1/7 → 5 | 1.2._
stage 1/7 5 | 1.2._; stage 2/7 6 | _.2._; commit; len → 2

== the last answer hides those before it
stage 1/7 5 | 1.2._; stage 1/7 6 | 5._._; find 1/7 → 6 | 5._._
stage 1/7 5 | 1.2._; commit; stage 1/7 6 | 5._._; find 1/7 → 6 | 5._._
stage 1/7 5 | 1.2._; commit; stage 1/7 6 | 5._._; commit; find 1/7 → 6 | 5._._
stage 1/7 5 | 1.2._; commit; stage 1/7 6 | 5._._; commit; len → 1
stage 1/7 5 | 1.2._; commit; stage 1/7 6 | 5._._; commit; mask 1.2.3; find 1/7 → 6 | 5._._

== what a triple touches is masked
stage 1/7 5 | 1.2._; commit; mask 1.2.3; find 1/7 → nothing
stage 1/7 5 | _.2.3; commit; mask 1.2.3; find 1/7 → nothing
stage 1/7 5 | 1._._; commit; mask 1.2.3; find 1/7 → nothing
stage 1/7 5 | _.2._; commit; mask 1.2.3; find 1/7 → nothing
stage 1/7 5 | 8.9._ 1.2._; commit; mask 1.2.3; find 1/7 → nothing
stage 1/7 5 | 1.2._; commit; mask 1.3.3; find 1/7 → 5 | 1.2._
stage 1/7 5 | _.2.3; commit; mask 3.2.1; find 1/7 → 5 | _.2.3
stage 1/7 5 |; commit; mask 1.2.3; find 1/7 → 5 |
stage 1/7 5 | 1.2._; stage 1/8 6 | _.2.4; commit; mask 1.2.3; find 1/8 → 6 | _.2.4
stage 1/7 5 | 1.2._; stage 1/8 6 | _.2.3; commit; mask 1.2.3; find 1/8 → nothing
stage 1/7 5 | 1.2._; commit; mask 1.2.3; len → 1

== by each of several triples, added before the bar and removed behind it
stage 1/7 5 | 1.2._; commit; changed | ; find 1/7 → 5 | 1.2._
stage 1/7 5 | 1.2._; commit; changed 1.3.3 | 2.2.3; find 1/7 → 5 | 1.2._
stage 1/7 5 | 1.2._; commit; changed 1.2.3 | 6.5.4; find 1/7 → nothing
stage 1/7 5 | 1.2._; commit; changed 8.8.8 1.2.3 | ; find 1/7 → nothing
stage 1/7 5 | 1.2._; commit; changed | 6.5.4 1.2.3; find 1/7 → nothing
stage 1/7 5 | 1.2._; stage 1/8 6 | 6._._; commit; changed 1.2.3 | 6.5.4; find 1/8 → nothing
stage 1/7 5 | 1.2._; stage 1/8 6 | 7._._; commit; changed 1.2.3 | 6.5.4; find 1/8 → 6 | 7._._
stage 1/7 5 | 1.2._; stage 1/8 6 | 6._._; commit; changed 1.2.3 | 6.5.4; commit; len → 0

== a mask goes up along answers
stage 1/7 5 | 2/9; stage 2/9 6 | 1.2._; commit; mask 1.2.3; find 1/7 → nothing
stage 1/7 5 | 2/9; stage 2/9 6 | 1.2._; commit; mask 1.2.3; find 2/9 → nothing
stage 1/7 5 | 2/9; stage 2/9 6 | 1.2._; commit; mask 1.3.3; find 1/7 → 5 | 2/9
stage 1/7 5 | 2/9; stage 2/9 6 | 1.2._; commit; mask 1.2.3; len → 2
stage 1/7 5 | 2/9; stage 2/9 6 | 1.2._; commit; mask 1.2.3; commit; len → 0
stage 1/7 5 | 2/9; stage 2/9 6 | 1.2._; commit; changed 1.2.3 | ; find 1/7 → nothing
stage 1/7 5 | 2/9; stage 2/9 6 | 1.2._; commit; changed 8.8.8 | 1.2.3; find 1/7 → nothing
load 1/7 5 | 2/9, 2/9 6 | 1.2._; mask 1.2.3; find 1/7 → nothing
load 1/7 5 | 4294967295/0, 4294967295/0 6 | 1.2._; mask 1.2.3; find 1/7 → nothing
load 1/7 5 | 2/9, 1/8 5 | 2/9, 2/9 6 | 1.2._, 3/3 |; mask 1.2.3; commit; pairs → 3/3

== in two steps
stage 1/7 5 | 2/9; stage 2/9 6 | 3/4; stage 3/4 8 | 1.2._; commit; mask 1.2.3; find 1/7 → nothing
stage 1/7 5 | 2/9; stage 2/9 6 | 3/4; stage 3/4 8 | 1.2._; commit; mask 1.2.3; find 2/9 → nothing
stage 1/7 5 | 2/9; stage 2/9 6 | 3/4 1.2._; stage 3/4 8 |; commit; mask 1.2.3; commit; pairs → 3/4

== past a diamond
load 1/7 5 | 2/8 2/9, 2/8 6 | 3/4, 2/9 6 | 3/4, 3/4 8 | 1.2._; mask 1.2.3; find 1/7 → nothing
load 1/7 5 | 2/8 2/9, 2/8 6 | 3/4, 2/9 6 | 3/4, 3/4 8 | 1.2._; mask 1.2.3; commit; len → 0
load 1/7 5 | 2/8 2/9, 2/8 6 | 1.2._, 2/9 6 | 5._._; mask 1.2.3; commit; pairs → 2/9
load 1/7 5 | 2/8 2/9, 2/8 6 | 1.2._, 2/9 6 | 5._._; changed 1.2.3 | 5.6.7; commit; len → 0

== round a circle
load 1/7 5 | 1/7 1.2._, 1/8 5 | 1/8; mask 1.2.3; commit; pairs → 1/8
load 1/7 5 | 2/9, 2/9 6 | 1/7 1.2._; mask 1.2.3; commit; len → 0

== not to whoever reads another answer, and not down
load 1/7 5 | 2/9, 2/8 6 | 1.2._, 2/9 6 | 5._._; mask 1.2.3; find 1/7 → 5 | 2/9
load 1/7 5 | 3/8, 2/8 6 | 1.2._; mask 1.2.3; find 1/7 → 5 | 3/8
load 1/7 5 | 2/9 1.2._, 2/9 6 | 5._._; mask 1.2.3; find 2/9 → 6 | 5._._
load 1/7 5 | 2/9; mask 2.9.9; find 1/7 → 5 | 2/9
load 1/7 5 | 2/9, 2/9 6 | 1.2._; stage 1/7 5 | 3/9; commit; mask 1.2.3; find 1/7 → 5 | 3/9

== along what is kept, and not along what is staged
stage 1/7 5 | 2/9; stage 3/4 8 | 1.2._; commit; stage 2/9 6 | 3/4; mask 1.2.3; find 1/7 → 5 | 2/9
stage 1/7 5 | 2/9; stage 3/4 8 | 1.2._; commit; stage 2/9 6 | 1.2._; mask 1.2.3; find 1/7 → 5 | 2/9
load 2/9 6 | 1.2._; stage 1/7 5 | 2/9; mask 1.2.3; find 1/7 → 5 | 2/9
load 1/7 5 | 2/9, 2/9 6 | 1.2._; stage 2/9 6 | 5._._; mask 1.2.3; find 1/7 → nothing
load 1/7 5 | 2/9, 2/9 6 | 1.2._; stage 2/9 6 | 5._._; mask 1.2.3; find 2/9 → 6 | 5._._
load 1/7 5 | 2/9, 2/9 6 | 1.2._; stage 1/7 5 | 2/8; mask 1.2.3; find 1/7 → 5 | 2/8
load 1/7 5 | 2/9, 2/9 6 | 3/4, 3/4 8 | 1.2._; stage 2/9 6 |; mask 1.2.3; find 1/7 → nothing
load 1/7 5 | 2/9, 2/9 6 | 1.2._; mask 1.2.3; drop; find 1/7 → 5 | 2/9

== masks add up
stage 1/7 5 | 1.2._; stage 1/8 6 | _.2.4; commit; mask 1.2.3; mask 6.2.4; find 1/7 → nothing
stage 1/7 5 | 1.2._; stage 1/8 6 | _.2.4; commit; mask 1.2.3; mask 6.2.4; find 1/8 → nothing
stage 1/7 5 | 1.2._; stage 1/8 6 | _.2.4; commit; mask 1.2.3; mask 1.2.3; find 1/8 → 6 | _.2.4

== a mask leaves what is staged, and an answer may follow it
stage 1/7 5 | 1.2._; mask 1.2.3; find 1/7 → 5 | 1.2._
stage 1/7 5 | 1.2._; mask 1.2.3; commit; find 1/7 → 5 | 1.2._
stage 1/7 5 | 1.2._; commit; stage 1/7 6 | 1.2._; mask 1.2.3; find 1/7 → 6 | 1.2._
stage 1/7 5 | 1.2._; commit; mask 1.2.3; stage 1/7 6 | _.2._; find 1/7 → 6 | _.2._
stage 1/7 5 | 1.2._; commit; mask 1.2.3; stage 1/7 6 | _.2._; commit; find 1/7 → 6 | _.2._
stage 1/7 5 | 1.2._; commit; mask 1.2.3; stage 1/7 6 | _.2._; commit; len → 1

== a commit forgets what is masked, and that alone
stage 1/7 5 | 1.2._; commit; mask 1.2.3; commit; find 1/7 → nothing
stage 1/7 5 | 1.2._; commit; mask 1.2.3; commit; len → 0
stage 1/7 5 | 1.2._; commit; mask 1.2.3; commit; drop; find 1/7 → nothing
stage 1/7 5 | 1.2._; stage 1/8 6 | _.2.4; commit; mask 1.2.3; commit; find 1/8 → 6 | _.2.4
stage 1/7 5 | 1.2._; stage 1/8 6 | _.2.4; commit; mask 1.2.3; commit; len → 1
stage 1/7 5 | 1.2._; commit; mask 1.2.3; commit; stage 1/7 6 | 1.2._; commit; find 1/7 → 6 | 1.2._

== the pairs of which something is kept, masked or not, in order
pairs →
stage 1/7 5 | 1.2._; pairs →
stage 1/7 5 | 1.2._; commit; pairs → 1/7
stage 1/7 5 | 1.2._; commit; stage 1/8 6 | 1.2._; pairs → 1/7
stage 2/1 5 | 1.2._; stage 1/10 |; stage 1/9 6 | _.2.3; commit; pairs → 1/9 1/10 2/1
stage 1/7 5 | 1.2._; commit; stage 1/7 6 | 5._._; commit; pairs → 1/7
stage 1/7 5 | 1.2._; stage 1/8 6 | _.2.4; commit; mask 1.2.3; pairs → 1/7 1/8
stage 1/7 5 | 1.2._; stage 1/8 6 | _.2.4; commit; mask 1.2.3; commit; pairs → 1/8
stage 1/7 5 | 1.2._; drop; pairs →

== what was read in all: the parts of the graph, also for the answers that were read
all 1/7 → nothing
stage 1/7 5 |; all 1/7 →
stage 1/7 5 | 1.2._ _.2.3 1._._ _.2._; all 1/7 → 1.2._ _.2.3 1._._ _.2._
stage 1/7 5 | 2/9; all 1/7 →
stage 1/7 5 | 2/9; stage 2/9 6 | 1.2._; all 1/7 → 1.2._
stage 1/7 5 | 2/9; stage 2/9 6 | 1.2._; commit; all 1/7 → 1.2._
stage 1/7 5 | 5._._ 2/9; stage 2/9 6 | 1.2._ 5._._; all 1/7 → 5._._ 1.2._
stage 1/7 5 | 2/9 5._._; stage 2/9 6 | 1.2._; all 2/9 → 1.2._
stage 1/7 5 | 2/9; stage 2/8 6 | 1.2._; stage 3/9 6 | 1.3._; all 1/7 →
load 1/7 5 | 2/9, 2/9 6 | 3/4 5._._, 3/4 8 | 1.2._; all 1/7 → 5._._ 1.2._
load 1/7 5 | 2/8 2/9, 2/8 6 | 3/4, 2/9 6 | 3/4 _.2._, 3/4 8 | 1.2._ _.2._; all 1/7 → 1.2._ _.2._
load 1/7 5 | 2/9 5._._, 2/9 6 | 1/7 1.2._; all 1/7 → 5._._ 1.2._
load 1/7 5 | 2/9 5._._, 2/9 6 | 1/7 1.2._; all 2/9 → 1.2._ 5._._

== what is remembered counts there
load 1/7 5 | 2/9, 2/9 6 | 1.2._; stage 2/9 6 | 5._._; all 1/7 → 5._._
load 1/7 5 | 2/9, 2/9 6 | 1.2._; mask 1.2.3; all 1/7 → nothing
load 1/7 5 | 2/9, 2/9 6 | 1.2._; stage 1/7 5 | 2/9 5._._; mask 1.2.3; all 1/7 → 5._._
load 1/7 5 | 2/9, 2/9 6 | 1.2._; stage 2/9 6 | 5._._; drop; all 1/7 → 1.2._

== loaded at once
load 1/7 5 6 | 1.2._; find 1/7 → 5 6 | 1.2._
load 1/7 5 6 | 1.2._; find 1/8 → nothing
load 1/7 5 6 | 1.2._; find 2/7 → nothing
load 2/1 5 | 1.2._, 1/9 |, 1/7 6 8 | _.2.3 5._._; find 2/1 → 5 | 1.2._
load 2/1 5 | 1.2._, 1/9 |, 1/7 6 8 | _.2.3 5._._; find 1/9 → |
load 2/1 5 | 1.2._, 1/9 |, 1/7 6 8 | _.2.3 5._._; find 1/7 → 6 8 | 5._._ _.2.3
load 2/1 5 | 1.2._, 1/9 |, 1/7 6 8 | _.2.3 5._._; find 2/7 → nothing
load 2/1 5 | 1.2._, 1/9 |, 1/7 6 8 | _.2.3 5._._; len → 3
load 2/1 5 | 1.2._, 1/9 |, 1/7 6 8 | _.2.3 5._._; pairs → 1/7 1/9 2/1
load 2/1 5 | 1.2._, 1/9 |, 1/7 6 8 | _.2.3 5._._; mask 1.2.3; find 2/1 → nothing
load 2/1 5 | 1.2._, 1/9 |, 1/7 6 8 | _.2.3 5._._; mask 1.2.4; find 1/7 → 6 8 | _.2.3 5._._
load 2/1 5 | 1.2._, 1/9 |, 1/7 6 8 | _.2.3 5._._; mask 1.2.3; commit; len → 1
load 1/7 5 | 1.2._; drop; find 1/7 → 5 | 1.2._
load 1/7 5 | 1.2._, 1/8 6 | 1.2._; stage 1/7 8 | 5._._; commit; mask 1.2.3; find 1/7 → 8 | 5._._

== what is dropped leaves no trace
stage 1/7 5 | 1.2._; drop; find 1/7 → nothing
stage 1/7 5 | 1.2._; drop; commit; len → 0
stage 1/7 5 | 1.2._; commit; mask 1.2.3; drop; find 1/7 → 5 | 1.2._
stage 1/7 5 | 1.2._; commit; mask 1.2.3; drop; commit; find 1/7 → 5 | 1.2._
stage 1/7 5 | 1.2._; commit; mask 1.2.3; stage 1/7 6 | 5._._; drop; find 1/7 → 5 | 1.2._
stage 1/7 5 | 1.2._; commit; stage 1/7 6 | 5._._; drop; mask 5.2.3; find 1/7 → 5 | 1.2._
stage 1/7 5 | 1.2._; commit; stage 1/7 6 | 5._._; drop; mask 1.2.3; find 1/7 → nothing
";

fn is_answered(alloc: Global, row: &str) -> Result<bool, RowFault> {
    let (steps, answer) = cut(row, " →")?;
    let (before, question) = steps.rsplit_once("; ").unwrap_or(("", steps));
    let mut recall = Recall::new(alloc);
    for step in before.split("; ") {
        if !step.is_empty() {
            make(alloc, &mut recall, step)?;
        }
    }
    answers(alloc, &recall, question, answer.trim_start())
}

fn make(alloc: Global, recall: &mut Recall, step: &str) -> Result<(), RowFault> {
    let (verb, of) = verb_of(step)?;
    match verb {
        Verb::Stage => stage(alloc, recall, of),
        Verb::Load => load(alloc, recall, of),
        Verb::Mask => Ok(recall.mask(alloc, &triple(of)?)?),
        Verb::Changed => mask_change(alloc, recall, of),
        Verb::Commit => {
            recall.commit();
            Ok(())
        }
        Verb::Drop => {
            recall.drop_staged();
            Ok(())
        }
        _ => Err(RowFault::Unread),
    }
}

fn stage(alloc: Global, recall: &mut Recall, of: &str) -> Result<(), RowFault> {
    let (pair, answer) = answer_of(alloc, of)?;
    Ok(recall.stage(pair, answer.rows, answer.reads)?)
}

// A pair, and the answer that is to be remembered of it.
fn answer_of(alloc: Global, of: &str) -> Result<(Pair, PairAnswer<Reads>), RowFault> {
    let (answer, keys) = cut(of, "|")?;
    let (of, numbers) = answer.split_once(' ').unwrap_or((answer, ""));
    let pair = pair(of)?;
    let rows = rows_of(alloc, pair.shape, numbers)?;
    let reads = reads(alloc, keys)?;
    Ok((pair, PairAnswer { rows, reads }))
}

fn load(alloc: Global, recall: &mut Recall, all: &str) -> Result<(), RowFault> {
    *recall = loaded(alloc, all)?;
    Ok(())
}

// The answers of several pairs, which are told apart by commas.
fn loaded(alloc: Global, all: &str) -> Result<Recall, RowFault> {
    let mut answers = Vec::new(alloc);
    for of in all.split(", ") {
        add_answer(alloc, &mut answers, of)?;
    }
    Ok(Recall::of_all(alloc, answers)?)
}

fn add_answer(
    alloc: Global,
    all: &mut Vec<(Pair, PairAnswer<Reads>)>,
    of: &str,
) -> Result<(), RowFault>
    requires { IsDistinct same_pair (keys_of all.old.items) }
    ensures { OnOk result (IsDistinct same_pair (keys_of all.new.items)) }
{
    let (pair, answer) = answer_of(alloc, of)?;
    if is_among(all, pair) {
        return Err(RowFault::Unread);
    }
    all.push((pair, answer))?;
    Ok(())
}

fn is_among(all: &[(Pair, PairAnswer<Reads>)], pair: Pair) -> bool
    ensures { result ≡ list_any (λ answer. same_pair pair answer.0) all.now }
{
    all.iter().any(|answer| pair == answer.0)
}

fn mask_change(alloc: Global, recall: &mut Recall, of: &str) -> Result<(), RowFault> {
    let change = Change::of(alloc, of)?;
    recall.mask_change(alloc, &change.added, &change.removed)?;
    Ok(())
}

fn answers(alloc: Global, recall: &Recall, question: &str, answer: &str) -> Result<bool, RowFault> {
    let (verb, of) = verb_of(question)?;
    match verb {
        Verb::Find => is_found(recall.find(&pair(of)?), answer),
        Verb::All => is_read(alloc, recall, &pair(of)?, answer),
        Verb::Len => Ok(recall.len() as u64 == u64::from(number(answer)?)),
        Verb::Pairs => are_pairs(&recall.pairs(alloc)?, answer),
        _ => Err(RowFault::Unread),
    }
}

fn is_found(found: Option<Recalled<'_, Reads>>, answer: &str) -> Result<bool, RowFault> {
    let Some(found) = found else {
        return Ok(answer == "nothing");
    };
    let (numbers, keys) = cut(answer, "|")?;
    Ok(are_numbered(found.rows, numbers) && are_said(found.reads, keys)?)
}

// Whether these keys are what the answer of the pair was read from, in all.
fn is_read(alloc: Global, recall: &Recall, pair: &Pair, answer: &str) -> Result<bool, RowFault> {
    match recall.find(pair) {
        Some(found) => are_said(&recall.all_read(alloc, found.reads)?, answer),
        None => Ok(answer == "nothing"),
    }
}

// Whether these are results of these numbers, in this order.
fn are_numbered(rows: &[ResultRow], numbers: &str) -> bool {
    let mut due = Due::of(numbers);
    for row in rows {
        due.take(row);
    }
    due.are_all_met()
}

#[test]
fn recall_is_as_said(rt: HostRuntime) -> Result<(), Fail> {
    all_met(rt.alloc(), ROWS, is_answered)
}
