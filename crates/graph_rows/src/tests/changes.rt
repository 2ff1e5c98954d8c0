mod rows;

use super::change::Change;
use super::ending::{Ending, ending_of};
use super::letters::{graph_of, key_of, store_from};
use super::questions::{answers, is_same};
use super::steps::{exchanged, is_countable, is_patch};
use due_view::DueView;
use graph_view::{GraphEdit, GraphView, ListGraph, Patched, Reads};
use row_tools::{RowFault, all_met, cut, in_four, in_three, number};
use std::alloc::Global;
use std::test::Fail;
use triple_store::Overlay;

// Whether a graph with a change that is not made answers a question as is due.
fn patched_answers<V: GraphView>(
    alloc: Global,
    base: &V,
    change: &Change,
    (question, due): (&str, &str),
) -> Result<bool, RowFault> {
    let (added, removed) = (&change.added, &change.removed);
    if !is_patch(base, added, removed) || !is_countable(base, added, removed) {
        return Err(RowFault::Unread);
    }
    let patched = Patched::new(base, added.triples(), removed.triples());
    let overlay = Overlay::new(alloc, base, added.triples(), removed.triples())?;
    Ok(answers(alloc, &patched, question, due)? && answers(alloc, &overlay, question, due)?)
}

// The same where the base may be asked the question's key alone, if any.
fn due_answers<V: GraphView>(
    alloc: Global,
    base: &V,
    change: &Change,
    (question, due): (&str, &str),
) -> Result<bool, RowFault> {
    let mut keys = Reads::new(alloc);
    if question.contains('?') {
        keys.add(key_of(question)?)?;
    }
    patched_answers(alloc, &DueView::new(base, &keys), change, (question, due))
}

fn list_answers(
    alloc: Global,
    base: &str,
    change: &Change,
    asked: (&str, &str),
) -> Result<bool, RowFault> {
    let graph = graph_of(alloc, 75, 100, base)?;
    due_answers(alloc, &graph, change, asked)
}

fn store_answers(
    alloc: Global,
    base: &str,
    change: &Change,
    asked: (&str, &str),
) -> Result<bool, RowFault> {
    let store = store_from(alloc, graph_of(alloc, 75, 100, base)?)?;
    due_answers(alloc, &store, change, asked)
}

// Whether the row's base of either kind, with the row's change, answers the row's question as is due.
fn is_answered(alloc: Global, row: &str) -> Result<bool, RowFault> {
    let (base, row) = cut(row, ": ")?;
    let (added, removed, question, due) = in_four(row, "|")?;
    let change = Change::of(alloc, removed, added)?;
    let asked = (question, due);
    Ok(list_answers(alloc, base, &change, asked)? && store_answers(alloc, base, &change, asked)?)
}

#[test]
fn patched_graphs_answer_by_their_definition(rt: HostRuntime) -> Result<(), Fail> {
    all_met(rt.alloc(), rows::PATCHED, is_answered)
}

#[test]
fn changes_stand_first_last_and_between(rt: HostRuntime) -> Result<(), Fail> {
    all_met(rt.alloc(), rows::PLACES, is_answered)
}

// Whether a change that is not made of a graph has the same look-ups as another graph.
fn is_patched_as<V: GraphView>(
    alloc: Global,
    base: &ListGraph,
    change: &Change,
    other: &V,
) -> Result<bool, RowFault> {
    let (added, removed) = (&change.added, &change.removed);
    if !is_patch(base, added, removed) || !is_countable(base, added, removed) {
        return Err(RowFault::Unread);
    }
    let patched = Patched::new(base, added.triples(), removed.triples());
    let overlay = Overlay::new(alloc, base, added.triples(), removed.triples())?;
    Ok(is_same(alloc, &patched, other)? && is_same(alloc, &overlay, other)?)
}

// Whether a change of a graph that is as the base ends as is due, is as it was looked through if it is made,
// and can be taken back.
fn is_made<E: GraphEdit>(
    alloc: Global,
    base: &ListGraph,
    change: &Change,
    graph: &mut E,
    due: Ending,
) -> Result<bool, RowFault> {
    if exchanged(graph, &change.added, &change.removed)? != due {
        return Ok(false);
    }
    if due != Ending::Done {
        return Ok(true);
    }
    Ok(
        is_patched_as(alloc, base, change, graph)?
            && exchanged(graph, &change.removed, &change.added)? == Ending::Done,
    )
}

// The same, where a change leaves nothing when it is refused or taken back.
fn ends_as_due<E: GraphEdit>(
    alloc: Global,
    base: &ListGraph,
    change: &Change,
    graph: &mut E,
    due: Ending,
) -> Result<bool, RowFault> {
    Ok(is_made(alloc, base, change, graph, due)? && is_same(alloc, base, graph)?)
}

// The same of a plain graph, where a change that is refused leaves the very list of triples.
fn ends_in_a_list(
    alloc: Global,
    base: &ListGraph,
    change: &Change,
    graph: &mut ListGraph,
    due: Ending,
) -> Result<bool, RowFault> {
    let ends = ends_as_due(alloc, base, change, graph, due)?;
    Ok(ends && (due != Ending::Full || graph.triples() == base.triples()))
}

fn list_ends(
    alloc: Global,
    made_of: (u64, &str),
    base: &ListGraph,
    change: &Change,
    due: Ending,
) -> Result<bool, RowFault> {
    let mut graph = graph_of(alloc, 75, made_of.0, made_of.1)?;
    ends_in_a_list(alloc, base, change, &mut graph, due)
}

fn store_ends(
    alloc: Global,
    made_of: (u64, &str),
    base: &ListGraph,
    change: &Change,
    due: Ending,
) -> Result<bool, RowFault> {
    let mut store = store_from(alloc, graph_of(alloc, 75, made_of.0, made_of.1)?)?;
    ends_as_due(alloc, base, change, &mut store, due)
}

// Whether the change of a graph of either kind ends as is due.
fn ends_in_both(
    alloc: Global,
    made_of: (u64, &str),
    change: &Change,
    due: Ending,
) -> Result<bool, RowFault> {
    let base = graph_of(alloc, 75, made_of.0, made_of.1)?;
    Ok(
        list_ends(alloc, made_of, &base, change, due)?
            && store_ends(alloc, made_of, &base, change, due)?,
    )
}

// Whether the row's change of a graph of either kind, that may hold as many triples as the row says, ends as
// it says.
fn is_changed(alloc: Global, row: &str) -> Result<bool, RowFault> {
    let (limit, words, row) = in_three(row, ": ")?;
    let (removed, added, due) = in_three(row, "|")?;
    let made_of = (u64::from(number(limit)?), words);
    let due = ending_of(due)?;
    let change = Change::of(alloc, removed, added)?;
    ends_in_both(alloc, made_of, &change, due)
}

#[test]
fn changes_are_made_whole_or_not_at_all(rt: HostRuntime) -> Result<(), Fail> {
    all_met(rt.alloc(), rows::CHANGES, is_changed)
}
