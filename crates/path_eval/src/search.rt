//! The search over states.
ghost use Rattle.std.specs.Prelude.{◌≡◌, [], ◌∷◌, IfOk, OnOk};
ghost use Rattle.shx_term.specs.Members.{SameMembers};
ghost use Rattle.path_eval.specs.Relation.{step_key};
ghost use Rattle.path_eval.specs.Way.{step_to};
ghost use Rattle.path_eval.specs.inner.Reached.{HasThose, Joins, NotesThose};
ghost use Rattle.path_eval.specs.inner.Rows.{IsByPlace};
ghost use Rattle.path_eval.specs.inner.States.{IsLookedUp, IsReached, goes, looks, next_keys, next_states};
ghost use Rattle.path_eval.specs.inner.States.{state_at};

use crate::Direction;
use crate::edge::{Edge, Label, State};
use crate::rows::edges_at;
use crate::states::States;
use graph_view::{GraphView, Notes};
use shx_term::{Id, Memory};
use std::alloc::Global;

/// From a node: its objects, or the subjects of which it is the object.
pub(crate) fn step<V: GraphView, N: Notes>(
    alloc: Global,
    view: &V,
    direction: Direction,
    p: Id,
    node: Id,
    reads: &mut N,
) -> Result<Vec<Id>, Memory>
    ensures found { IfOk result (λ found. found.items ≡ step_to (V.graph view.now) direction p node) }
    ensures reads { OnOk result (N.notes reads.old reads.new (step_key direction p node ∷ [])) }
{
    match direction {
        Direction::Forward => Ok(view.objects(alloc, node, p, reads)?),
        Direction::Backward => Ok(view.subjects(alloc, p, node, reads)?),
    }
}

// The same nodes in any order.
fn step_unsorted<V: GraphView, N: Notes>(
    alloc: Global,
    view: &V,
    direction: Direction,
    p: Id,
    node: Id,
    reads: &mut N,
) -> Result<Vec<Id>, Memory>
    ensures found { IfOk result (λ found.
        SameMembers found.items (step_to (V.graph view.now) direction p node)) }
    ensures reads { OnOk result (N.notes reads.old reads.new (step_key direction p node ∷ [])) }
{
    match direction {
        Direction::Forward => Ok(view.objects_unsorted(alloc, node, p, reads)?),
        Direction::Backward => Ok(view.subjects_unsorted(alloc, p, node, reads)?),
    }
}

// Along an edge from a state, if it begins there.
fn follow_edge<V: GraphView, N: Notes>(
    alloc: Global,
    view: &V,
    edge: Edge,
    state: State,
    seen: &mut States,
    reads: &mut N,
) -> Result<(), Memory>
    ensures seen { OnOk result (Joins seen.old (goes (V.graph view.now) state edge) seen.new) }
    ensures reads { OnOk result (N.notes reads.old reads.new (looks (V.graph view.now) state edge)) }
{
    if edge.from != state.place {
        return Ok(());
    }
    match edge.label {
        Label::Free => {
            seen.add(State {
                place: edge.to,
                node: state.node,
            })?;
            Ok(())
        }
        Label::Step(direction, p) => {
            let found = step_unsorted(alloc, view, direction, p, state.node, reads)?;
            seen.add_all(edge.to, &found)?;
            Ok(())
        }
    }
}

// Along each edge from a state.
fn follow_edges<V: GraphView, N: Notes>(
    alloc: Global,
    view: &V,
    edges: &[Edge],
    state: State,
    seen: &mut States,
    reads: &mut N,
) -> Result<(), Memory>
    ensures seen { OnOk result (Joins seen.old (next_states (V.graph view.now) edges.now state) seen.new) }
    ensures reads { OnOk result (N.notes reads.old reads.new (next_keys (V.graph view.now) edges.now state)) }
{
    for edge in edges {
        follow_edge(alloc, view, *edge, state, seen, reads)?;
    }
    Ok(())
}

/// The nodes that are reached at a place, each once, if a node is at another.
pub(crate) fn search<V: GraphView, N: Notes>(
    alloc: Global,
    view: &V,
    rows: &[Vec<Edge>],
    edges: &[Edge],
    start: State,
    end: u32,
    reads: &mut N,
) -> Result<Vec<Id>, Memory>
    requires { IsByPlace rows.now edges.now }
    ensures nodes { IfOk result (λ nodes. HasThose nodes.items
        (λ y. IsReached (next_states (V.graph view.now) edges.now) start (state_at end y))) }
    ensures reads { OnOk result
        (NotesThose N.notes reads.old reads.new (IsLookedUp (V.graph view.now) edges.now start)) }
{
    let mut seen = States::new(alloc);
    seen.add(start)?;
    let mut at = 0;
    while at < seen.as_slice().len() {
        let state = seen.as_slice()[at];
        let leading = edges_at(rows, edges, state.place);
        follow_edges(alloc, view, leading, state, &mut seen, reads)?;
        at += 1;
    }
    let nodes = seen.nodes_at(alloc, end)?;
    Ok(nodes)
}
