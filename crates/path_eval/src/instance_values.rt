//! SHACL instances.
ghost use Rattle.std.specs.Prelude.{◌≡◌, ◌<◌, length, IfOk, OnOk};
ghost use Rattle.shx_term.specs.Members.{SameMembers};
ghost use Rattle.graph_view.specs.Graph.{HasTerms};
ghost use Rattle.path_eval.specs.declared.direction.Direction.{Direction};
ghost use Rattle.path_eval.specs.Instances.{instance_route, is_instance};
ghost use Rattle.path_eval.specs.inner.Laid.{edge_by};
ghost use Rattle.path_eval.specs.inner.Course.{whole};
ghost use Rattle.path_eval.specs.Values.{nodes_reached, path_reads};

use crate::Direction;
use crate::course::START;
use crate::edge::{Edge, Label};
use crate::path_values::{follow_laid, reach_laid};
use graph_view::{GraphView, Notes};
use shx_term::vocabulary::{RDF_TYPE, RDFS_SUB_CLASS_OF};
use shx_term::{Id, Memory};
use std::alloc::Global;

// The place at which the path of instances ends, in either direction.
const END: u32 = 1;

/// The classes of which a node is a SHACL instance, in term order, each once: its types, and the classes of
/// which these are subclasses. It looks up the types of the node, and each class once, however they lead to
/// each other. Where memory is refused, some of the keys may have been added to `reads`.
pub fn classes<V: GraphView, N: Notes>(
    alloc: Global,
    view: &V,
    node: Id,
    reads: &mut N,
) -> Result<Vec<Id>, Memory>
    ensures classes { IfOk result (λ found.
        found.items ≡ nodes_reached (V.graph view.now) Direction.Forward instance_route node) }
    ensures known { IfOk result (λ found. node < length (V.graph view.now).terms
        → HasTerms (V.graph view.now) found.items) }
    ensures reads { OnOk result (N.notes reads.old reads.new
        (path_reads (V.graph view.now) Direction.Forward instance_route node)) }
{
    follow(alloc, view, Direction::Forward, node, reads)
}

/// The SHACL instances of a class, in term order, each once. It looks up each subclass once, and the nodes of
/// each. Where memory is refused, some of the keys may have been added to `reads`.
pub fn instances<V: GraphView, N: Notes>(
    alloc: Global,
    view: &V,
    class: Id,
    reads: &mut N,
) -> Result<Vec<Id>, Memory>
    ensures instances { IfOk result (λ found.
        found.items ≡ nodes_reached (V.graph view.now) Direction.Backward instance_route class) }
    ensures known { IfOk result (λ found. class < length (V.graph view.now).terms
        → HasTerms (V.graph view.now) found.items) }
    ensures reads { OnOk result (N.notes reads.old reads.new
        (path_reads (V.graph view.now) Direction.Backward instance_route class)) }
{
    follow(alloc, view, Direction::Backward, class, reads)
}

/// The same instances in any order, each once. No terms are compared.
pub fn instances_unsorted<V: GraphView, N: Notes>(
    alloc: Global,
    view: &V,
    class: Id,
    reads: &mut N,
) -> Result<Vec<Id>, Memory>
    ensures instances { IfOk result (λ found. SameMembers found.items
        (nodes_reached (V.graph view.now) Direction.Backward instance_route class)) }
    ensures known { IfOk result (λ found. class < length (V.graph view.now).terms
        → HasTerms (V.graph view.now) found.items) }
    ensures reads { OnOk result (N.notes reads.old reads.new
        (path_reads (V.graph view.now) Direction.Backward instance_route class)) }
{
    reach(alloc, view, Direction::Backward, class, reads)
}

/// Whether a node is a SHACL instance of a class. It costs what `classes` costs, and adds the same keys, also
/// where the class is found at once: so what was read does not depend on the class. Where memory is refused,
/// some of the keys may have been added to `reads`.
pub fn is_instance<V: GraphView, N: Notes>(
    alloc: Global,
    view: &V,
    node: Id,
    class: Id,
    reads: &mut N,
) -> Result<bool, Memory>
    ensures is { IfOk result (λ is. is ≡ is_instance (V.graph view.now) node class) }
    ensures reads { OnOk result (N.notes reads.old reads.new
        (path_reads (V.graph view.now) Direction.Forward instance_route node)) }
{
    let found = classes(alloc, view, node, reads)?;
    Ok(found.contains(&class))
}

// Along the path of instances in a direction, with no path built.
fn follow<V: GraphView, N: Notes>(
    alloc: Global,
    view: &V,
    direction: Direction,
    start: Id,
    reads: &mut N,
) -> Result<Vec<Id>, Memory>
    ensures nodes { IfOk result (λ found.
        found.items ≡ nodes_reached (V.graph view.now) direction instance_route start) }
    ensures known { IfOk result (λ found. start < length (V.graph view.now).terms
        → HasTerms (V.graph view.now) found.items) }
    ensures reads { OnOk result (N.notes reads.old reads.new
        (path_reads (V.graph view.now) direction instance_route start)) }
{
    let rows: Vec<Vec<Edge>> = Vec::new(alloc);
    let edges = instance_edges(direction);
    follow_laid(alloc, view, &rows, &edges, END, start, reads)
}

// The same nodes in any order, each once.
fn reach<V: GraphView, N: Notes>(
    alloc: Global,
    view: &V,
    direction: Direction,
    start: Id,
    reads: &mut N,
) -> Result<Vec<Id>, Memory>
    ensures nodes { IfOk result (λ found.
        SameMembers found.items (nodes_reached (V.graph view.now) direction instance_route start)) }
    ensures known { IfOk result (λ found. start < length (V.graph view.now).terms
        → HasTerms (V.graph view.now) found.items) }
    ensures reads { OnOk result (N.notes reads.old reads.new
        (path_reads (V.graph view.now) direction instance_route start)) }
{
    let rows: Vec<Vec<Edge>> = Vec::new(alloc);
    let edges = instance_edges(direction);
    reach_laid(alloc, view, &rows, &edges, END, start, reads)
}

// The path of instances as it is laid. It takes no memory, and is too short for rows.
fn instance_edges(direction: Direction) -> [Edge; 2]
    ensures { result ≡ (whole direction instance_route).edges }
{
    let kind = Label::Step(direction, RDF_TYPE);
    let wider = Label::Step(direction, RDFS_SUB_CLASS_OF);
    match direction {
        Direction::Forward => [edge(START, kind, END), edge(END, wider, END)],
        Direction::Backward => [edge(START, wider, START), edge(START, kind, END)],
    }
}

fn edge(from: u32, label: Label, to: u32) -> Edge
    ensures { result ≡ edge_by label from to }
{
    Edge { from, label, to }
}
