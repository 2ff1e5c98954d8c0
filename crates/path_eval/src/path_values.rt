//! The values of a path.
ghost use Rattle.std.specs.Prelude.{◌≡◌, ◌<◌, length, IfOk, OnOk};
ghost use Rattle.shx_term.specs.Members.{SameMembers};
ghost use Rattle.graph_view.specs.Graph.{HasTerms};
ghost use Rattle.path_eval.specs.declared.direction.Direction.{Direction};
ghost use Rattle.path_eval.specs.inner.Course.{whole};
ghost use Rattle.path_eval.specs.Route.{Route, route_of};
ghost use Rattle.path_eval.specs.inner.Rows.{IsByPlace};
ghost use Rattle.path_eval.specs.Values.{nodes_reached, path_reads};

use crate::course::START;
use crate::edge::{Edge, State};
use crate::laid_edges::LaidEdges;
use crate::search::{search, step};
use crate::{Direction, Path};
use graph_view::{GraphView, Notes};
use shx_term::{Id, Memory};
use std::alloc::Global;

/// The nodes that a path leads to from a node, in term order, each once (SHACL, section 2.3.1). It adds the
/// keys that it reads to `reads`, and no others. Where memory is refused, some of them may have been added.
///
/// It answers for every number; where the start has a term, so has each node that is given.
///
/// It recurses as deep as the path nests, to lay its edges. Then it takes each place of the path at most once
/// with each node, however closures nest.
pub fn values<V: GraphView, N: Notes>(
    alloc: Global,
    view: &V,
    path: &Path,
    start: Id,
    reads: &mut N,
) -> Result<Vec<Id>, Memory>
    ensures values { IfOk result (λ found.
        found.items ≡ nodes_reached (V.graph view.now) Direction.Forward (route_of path.now) start) }
    ensures known { IfOk result (λ found. start < length (V.graph view.now).terms
        → HasTerms (V.graph view.now) found.items) }
    ensures reads { OnOk result (N.notes reads.old reads.new
        (path_reads (V.graph view.now) Direction.Forward (route_of path.now) start)) }
{
    if let Path::Pred(p) = path {
        let _ = view.pool();
        let found = step(alloc, view, Direction::Forward, *p, start, reads)?;
        return Ok(found);
    }
    let edges = LaidEdges::of(alloc, path)?;
    edges.follow(alloc, view, start, reads)
}

/// The nodes to which the edges lead, as they are laid for a whole path, in term order. `rows` has the edges
/// by place.
pub(crate) fn follow_laid<V: GraphView, N: Notes>(
    alloc: Global,
    view: &V,
    rows: &[Vec<Edge>],
    edges: &[Edge],
    end: u32,
    start: Id,
    reads: &mut N,
) -> Result<Vec<Id>, Memory>
    requires { IsByPlace rows.now edges.now }
    ensures values { (d : Direction) (route : Route) → edges.now ≡ (whole d route).edges
        → end ≡ (whole d route).end
        → IfOk result (λ found. found.items ≡ nodes_reached (V.graph view.now) d route start) }
    ensures known { (d : Direction) (route : Route) → edges.now ≡ (whole d route).edges
        → end ≡ (whole d route).end
        → IfOk result (λ found. start < length (V.graph view.now).terms
        → HasTerms (V.graph view.now) found.items) }
    ensures reads { (d : Direction) (route : Route) → edges.now ≡ (whole d route).edges
        → end ≡ (whole d route).end
        → OnOk result (N.notes reads.old reads.new (path_reads (V.graph view.now) d route start)) }
{
    let nodes = reach_laid(alloc, view, rows, edges, end, start, reads)?;
    Ok(view.pool().in_order(nodes))
}

/// The same nodes in any order, each once.
pub(crate) fn reach_laid<V: GraphView, N: Notes>(
    alloc: Global,
    view: &V,
    rows: &[Vec<Edge>],
    edges: &[Edge],
    end: u32,
    start: Id,
    reads: &mut N,
) -> Result<Vec<Id>, Memory>
    requires { IsByPlace rows.now edges.now }
    ensures nodes { (d : Direction) (route : Route) → edges.now ≡ (whole d route).edges
        → end ≡ (whole d route).end
        → IfOk result (λ found. SameMembers found.items (nodes_reached (V.graph view.now) d route start)) }
    ensures known { (d : Direction) (route : Route) → edges.now ≡ (whole d route).edges
        → end ≡ (whole d route).end
        → IfOk result (λ found. start < length (V.graph view.now).terms
        → HasTerms (V.graph view.now) found.items) }
    ensures reads { (d : Direction) (route : Route) → edges.now ≡ (whole d route).edges
        → end ≡ (whole d route).end
        → OnOk result (N.notes reads.old reads.new (path_reads (V.graph view.now) d route start)) }
{
    let _ = view.pool();
    let first = State {
        place: START,
        node: start,
    };
    search(alloc, view, rows, edges, first, end, reads)
}
