//! The steps of a block: what is asked of an engine, and what is due.
use super::edits::are_made;
use super::entered::are_entered;
use super::watched::{Watch, Watched};
use edit_engine::Engine;
use graph_view::{GraphView, Key};
use row_tools::{RowFault, cut, number, term};
use shx_term::{Id, Pool, Steps};
use std::alloc::Global;
use std::sync::ledger::Ledger;
use ttl_read::Document;

fn id_of(alloc: Global, pool: &Pool, word: &str) -> Result<Id, RowFault> {
    pool.find(&term(alloc, word)?).ok_or(RowFault::Unread)
}

// What is counted from now on: `nothing`, `all`, or the look-ups of a subject and a predicate.
fn watch_of(alloc: Global, pool: &Pool, words: &str) -> Result<Watch, RowFault> {
    match words {
        "nothing" => Ok(Watch::Nothing),
        "all" => Ok(Watch::All),
        _ => {
            let (s, p) = cut(words, " ")?;
            Ok(Watch::Of(Key::Out(id_of(alloc, pool, s)?, id_of(alloc, pool, p)?)))
        }
    }
}

/// Whether there are so many pairs and results, `PAIRS RESULTS`.
pub(super) fn are_counts(engine: &Engine<Watched>, due: &str) -> Result<bool, RowFault> {
    let (pairs, results) = cut(due, " ")?;
    let (pairs, results) = (u64::from(number(pairs)?), u64::from(number(results)?));
    Ok(
        engine.pair_count() == pairs
            && engine.result_count() == results
            && engine.conforms() == (results == 0),
    )
}

fn is_met<K: Ledger, L: Ledger>(
    alloc: Global,
    engine: &mut Engine<Watched>,
    document: &Document,
    step: &str,
    nested: &mut Steps<K>,
    steps: &mut Steps<L>,
) -> Result<bool, RowFault> {
    let (kind, rest) = cut(step, " ")?;
    match kind {
        "watch" => {
            let watch = watch_of(alloc, engine.view().pool(), rest)?;
            engine.view().watch(watch);
            Ok(true)
        }
        "count" => are_counts(engine, rest),
        "enter" => are_entered(alloc, engine, rest),
        _ => {
            let (lines, due) = cut(step, " → ")?;
            let (due, counts) = cut(due, ", ")?;
            Ok(
                are_made(alloc, engine, document, lines, due, nested, steps)?
                    && are_counts(engine, counts)?,
            )
        }
    }
}

/// Whether an engine meets each of the steps.
pub(super) fn are_met<K: Ledger, L: Ledger>(
    alloc: Global,
    engine: &mut Engine<Watched>,
    document: &Document,
    all: &str,
    nested: &mut Steps<K>,
    steps: &mut Steps<L>,
) -> Result<bool, RowFault> {
    for step in all.lines() {
        if !is_met(alloc, engine, document, step, nested, steps)? {
            return Ok(false);
        }
    }
    Ok(true)
}
