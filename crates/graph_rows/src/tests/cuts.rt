//! Terms that are taken out of the pool of a graph, all of whose triples are told: `cut 70: rqx sqr`.
ghost use Rattle.std.specs.Prelude.{◌≤◌, ◌<◌, length, take, All, IsTrue};
ghost use Rattle.shx_term.specs.Members.{SameMembers};
ghost use Rattle.graph_view.specs.Graph.{IsKnownTriple};

use super::ending::Ending;
use super::letters::graph_of;
use super::steps::are_held;
use graph_view::{GraphEdit, GraphView, ListGraph};
use row_tools::{RowFault, cut, number};
use shx_term::vocabulary::VOCABULARY_LEN;
use shx_term::{Id, Triple};
use std::alloc::Global;

// Whether these are all triples of a graph.
fn are_all<V: GraphView>(view: &V, held: &ListGraph) -> bool
    ensures { IsTrue result → SameMembers (V.graph view.now).triples held.now.triples }
{
    view.len() == held.len() && are_held(view, held.triples(), true)
}

// Whether all numbers of the triples are below this one.
fn are_below(triples: &[Triple], len: Id) -> bool
    ensures { IsTrue result → All (λ t. (t.s < len) × (t.p < len) × (t.o < len)) triples.now }
{
    for t in triples {
        if t.s >= len || t.p >= len || t.o >= len {
            return false;
        }
    }
    true
}

// Whether a graph that holds these triples alone can be cut.
fn can_be_cut<V: GraphView>(view: &V, held: &ListGraph, len: Id) -> bool
    requires within { len ≤ length (V.graph view.now).terms }
    ensures { IsTrue result
        → All (IsKnownTriple (take len (V.graph view.now).terms)) (V.graph view.now).triples }
{
    are_all(view, held) && are_below(held.triples(), len)
}

fn cut_back<E: GraphEdit>(graph: &mut E, held: &ListGraph, len: Id) -> Result<Ending, RowFault> {
    if len < VOCABULARY_LEN || len > graph.pool().len() || !can_be_cut(graph, held, len) {
        return Err(RowFault::Unread);
    }
    graph.cut(len);
    Ok(Ending::Done)
}

/// Takes the terms from a number on out.
pub(super) fn cuts<E: GraphEdit>(
    alloc: Global,
    graph: &mut E,
    words: &str,
) -> Result<Ending, RowFault> {
    let (len, words) = cut(words, ":")?;
    let len = number(len)?;
    let held = graph_of(alloc, 75, 100, words)?;
    cut_back(graph, &held, len)
}
