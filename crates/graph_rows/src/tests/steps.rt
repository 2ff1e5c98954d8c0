//! A step of a graph, with its answer: `+apb` and `-apb` insert and remove, `exchange` does several at once,
//! `enter` and `cut` change the pool, and anything else is a question.
ghost use Rattle.std.specs.Prelude.{◌<◌, ◌^◌, length, All, Contains, IsTrue};
ghost use Rattle.std.specs.Bool.{MatchBool};
ghost use Rattle.graph_view.specs.Graph.{IsKnownTriple};
ghost use Rattle.graph_view.specs.Patched.{IsPatch, patched};

use super::change::Change;
use super::cuts::cuts;
use super::ending::{Ending, ends};
use super::letters::triple_of;
use super::questions::answers;
use due_view::is_known_triple;
use graph_view::{GraphEdit, GraphView, ListGraph, StoreFault};
use row_tools::{RowFault, cut, number, term};
use shx_term::{Id, PoolFault, Triple};
use std::alloc::Global;

fn ending_of_insert(outcome: Result<bool, StoreFault>) -> Result<Ending, RowFault> {
    match outcome {
        Ok(true) => Ok(Ending::New),
        Ok(false) => Ok(Ending::Held),
        Err(StoreFault::TooMany) => Ok(Ending::Full),
        Err(StoreFault::Memory) => Err(RowFault::Memory),
    }
}

/// Inserts a triple of terms that the graph has.
pub(super) fn inserted<E: GraphEdit>(graph: &mut E, t: Triple) -> Result<Ending, RowFault> {
    if is_known_triple(graph, &t) {
        return ending_of_insert(graph.insert(t));
    }
    Err(RowFault::Unread)
}

fn removed<E: GraphEdit>(graph: &mut E, t: &Triple) -> Ending {
    if graph.remove(t) {
        Ending::Gone
    } else {
        Ending::Absent
    }
}

fn is_entered(outcome: Result<Id, PoolFault>, due: &str) -> Result<bool, RowFault> {
    match outcome {
        Ok(id) => Ok(number(due) == Ok(id)),
        Err(PoolFault::Full) => Ok(due == "full"),
        Err(PoolFault::Memory) => Err(RowFault::Memory),
    }
}

fn enters<E: GraphEdit>(
    alloc: Global,
    graph: &mut E,
    word: &str,
    due: &str,
) -> Result<bool, RowFault> {
    let term = term(alloc, word)?;
    is_entered(graph.enter(&term), due)
}

/// Whether the graph holds all of the triples or, where `held` is false, none of them.
pub(super) fn are_held<V: GraphView>(view: &V, triples: &[Triple], held: bool) -> bool
    ensures { IsTrue result → All (λ t. MatchBool held (Contains (V.graph view.now).triples t)
        (Contains (V.graph view.now).triples t → ⊥)) triples.now }
{
    for t in triples {
        if view.contains(t) != held {
            return false;
        }
    }
    true
}

/// Whether the graph has terms for the numbers of the triples.
pub(super) fn are_known<V: GraphView>(view: &V, triples: &[Triple]) -> bool
    ensures { IsTrue result → All (IsKnownTriple (V.graph view.now).terms) triples.now }
{
    for t in triples {
        if !is_known_triple(view, t) {
            return false;
        }
    }
    true
}

/// Whether the triples of one graph can be added and those of another removed.
pub(super) fn is_patch<V: GraphView>(view: &V, added: &ListGraph, removed: &ListGraph) -> bool
    ensures { IsTrue result → IsPatch (V.graph view.now) added.now.triples removed.now.triples }
{
    let new = added.triples();
    let gone = removed.triples();
    let _ = added.len();
    let _ = removed.len();
    if are_held(view, new, false) {
        if are_known(view, new) {
            return are_held(view, gone, true);
        }
    }
    false
}

/// Whether a graph with the triples of another has fewer than a count can say.
pub(super) fn is_countable<V: GraphView>(view: &V, added: &ListGraph, removed: &ListGraph) -> bool
    ensures { IsTrue result → length
        (patched (V.graph view.now) added.now.triples removed.now.triples).triples < 2 ^ 64 }
{
    let most = view.len().saturating_add(added.len());
    if most < 1_000 {
        return true;
    }
    false
}

fn ending_of_exchange(outcome: Result<(), StoreFault>) -> Result<Ending, RowFault> {
    match outcome {
        Ok(()) => Ok(Ending::Done),
        Err(StoreFault::TooMany) => Ok(Ending::Full),
        Err(StoreFault::Memory) => Err(RowFault::Memory),
    }
}

/// Does a change.
pub(super) fn exchanged<E: GraphEdit>(
    graph: &mut E,
    added: &ListGraph,
    removed: &ListGraph,
) -> Result<Ending, RowFault> {
    let new = added.triples();
    let gone = removed.triples();
    if is_patch(graph, added, removed) {
        return ending_of_exchange(graph.exchange(gone, new));
    }
    Err(RowFault::Unread)
}

// The change of some words: those that are removed, a bar, and those that are added.
fn exchanges<E: GraphEdit>(alloc: Global, graph: &mut E, words: &str) -> Result<Ending, RowFault> {
    let (removed, added) = cut(words, "|")?;
    let change = Change::of(alloc, removed, added)?;
    exchanged(graph, &change.added, &change.removed)
}

enum Step<'a> {
    Insert(Triple),
    Remove(Triple),
    Exchange(&'a str),
    Enter(&'a str),
    Cut(&'a str),
    Ask(&'a str),
}

fn step_of(text: &str) -> Result<Step<'_>, RowFault> {
    if let Some(word) = text.strip_prefix('+') {
        return Ok(Step::Insert(triple_of(word)?));
    }
    if let Some(word) = text.strip_prefix('-') {
        return Ok(Step::Remove(triple_of(word)?));
    }
    match text.split_once(' ') {
        Some(("exchange", words)) => Ok(Step::Exchange(words)),
        Some(("enter", word)) => Ok(Step::Enter(word)),
        Some(("cut", words)) => Ok(Step::Cut(words)),
        Some(_) => Err(RowFault::Unread),
        None => Ok(Step::Ask(text)),
    }
}

/// Whether a step has the answer that is due.
pub(super) fn goes_on<E: GraphEdit>(
    alloc: Global,
    graph: &mut E,
    step: &str,
) -> Result<bool, RowFault> {
    let (step, due) = cut(step, " → ")?;
    match step_of(step)? {
        Step::Insert(t) => ends(inserted(graph, t), due),
        Step::Remove(t) => ends(Ok(removed(graph, &t)), due),
        Step::Exchange(words) => ends(exchanges(alloc, graph, words), due),
        Step::Enter(word) => enters(alloc, graph, word, due),
        Step::Cut(words) => ends(cuts(alloc, graph, words), due),
        Step::Ask(question) => answers(alloc, graph, question, due),
    }
}
