//! What is known of a graph before a shape is declared, and the paths that are read then.
ghost use Rattle.std.specs.Prelude.{◌≡◌, ◌==◌, ℕ, nat_eq, IfOk, OnOk};
ghost use Rattle.indexmap.specs.IndexSet.{contains};
ghost use Rattle.std.specs.List.{list_any};
ghost use Rattle.graph_view.specs.Graph.{Graph};
ghost use Rattle.path_eval.specs.Instances.{is_instance};
ghost use Rattle.shape_decl.specs.PathReadings.{path_reading, told_reading};
ghost use Rattle.shape_decl.specs.inner.Kept.{AreReadingsOf, IsKnownOf};

use crate::PathReading;
use crate::paths::path_with;
use crate::readings::{KnownGraph, ReadLists};
use graph_view::{GraphView, Reads};
use indexmap::{IndexMap, IndexSet};
use path_eval::instances;
use shx_term::vocabulary::{RDFS_CLASS, SH_NODE_SHAPE};
use shx_term::{Id, Limits, Memory};
use std::alloc::Global;

/// Nothing is read yet.
pub(crate) fn no_readings(alloc: Global) -> ReadLists
    ensures { (g : Graph) → AreReadingsOf g result }
{
    ReadLists {
        cells: IndexMap::new(alloc),
        lists: IndexMap::new(alloc),
    }
}

/// The instances of the two classes, by one walk each; nothing else is read yet.
pub(crate) fn first_known<V: GraphView>(
    alloc: Global,
    graph: &V,
    limits: &Limits,
) -> Result<KnownGraph, Memory>
    ensures { IfOk result (IsKnownOf limits.now (V.graph graph.now)) }
{
    Ok(KnownGraph {
        readings: no_readings(alloc),
        paths: IndexMap::new(alloc),
        node_shapes: instances_of(alloc, graph, SH_NODE_SHAPE)?,
        classes: instances_of(alloc, graph, RDFS_CLASS)?,
    })
}

// The SHACL instances of a class.
fn instances_of<V: GraphView>(alloc: Global, graph: &V, class: Id) -> Result<IndexSet<Id>, Memory>
    ensures { IfOk result (λ found.
        (n : ℕ) → contains nat_eq found n ≡ is_instance (V.graph graph.now) n class) }
{
    let _ = graph.pool();
    let nodes = instances(alloc, graph, class, &mut Reads::new(alloc))?;
    Ok(set_of(alloc, &nodes)?)
}

fn set_of(alloc: Global, nodes: &[Id]) -> Result<IndexSet<Id>, Memory>
    ensures { IfOk result (λ found.
        (n : ℕ) → contains nat_eq found n ≡ list_any (λ node. node == n) nodes.now) }
{
    let mut found = IndexSet::new(alloc);
    for node in nodes {
        found.insert(*node)?;
    }
    Ok(found)
}

/// The path that a node is, shared with whoever asks for it again.
pub(crate) fn known_path<V: GraphView>(
    alloc: Global,
    graph: &V,
    limits: &Limits,
    head: Id,
    known: &mut KnownGraph,
) -> Result<PathReading, Memory>
    requires { IsKnownOf limits.now (V.graph graph.now) known.old }
    ensures path { IfOk result (λ reading.
        told_reading reading ≡ path_reading limits.now (V.graph graph.now) head) }
    ensures known { OnOk result (IsKnownOf limits.now (V.graph graph.now) known.new) }
{
    if let Some(reading) = known.paths.get(&head) {
        return copied(reading);
    }
    let reading = path_with(alloc, graph, head, limits, &mut known.readings)?;
    let copy = copied(&reading)?;
    known.paths.insert(head, reading)?;
    Ok(copy)
}

fn copied(reading: &PathReading) -> Result<PathReading, Memory>
    ensures { IfOk result (λ copy. told_reading copy ≡ told_reading reading.now) }
{
    match reading {
        PathReading::Path(path) => Ok(PathReading::Path(path.copy()?)),
        PathReading::Broken => Ok(PathReading::Broken),
        PathReading::TooDeep => Ok(PathReading::TooDeep),
    }
}
