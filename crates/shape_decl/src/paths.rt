//! Paths, as a shapes graph states them.
ghost use Rattle.std.specs.Prelude.{◌≡◌, ◌≤◌, IfOk};
ghost use Rattle.shape_decl.specs.PathReadings.{path_reading, told_reading};
ghost use Rattle.shape_decl.specs.inner.Kept.{AreReadingsOf};

use crate::knowing::no_readings;
use crate::path_nodes::read_node;
use crate::readings::ReadLists;
use crate::{PathFault, PathReading};
use graph_view::GraphView;
use path_eval::LaidPath;
use shx_term::{Id, Limits, Memory};
use std::alloc::{AllocError, Global};

/// The path that a node is (SHACL, section 2.3.1), or why none is read: it is unfolded depth first, and the
/// first node that is too deep, one too many, or of no form of a path decides. It recurses as deep as
/// `limits.path_depth`, which is bounded so that the stack holds it. It passes `limits.path_parts` nodes at
/// most.
pub fn read_path<V: GraphView>(
    alloc: Global,
    graph: &V,
    head: Id,
    limits: &Limits,
) -> Result<PathReading, Memory>
    requires { limits.now.path_depth ≤ 64 }
    ensures { IfOk result (λ reading.
        told_reading reading ≡ path_reading limits.now (V.graph graph.now) head) }
{
    path_with(alloc, graph, head, limits, &mut no_readings(alloc))
}

/// The same, by what was read before.
pub(crate) fn path_with<V: GraphView>(
    alloc: Global,
    graph: &V,
    head: Id,
    limits: &Limits,
    readings: &mut ReadLists,
) -> Result<PathReading, Memory>
    requires { AreReadingsOf (V.graph graph.now) readings.old }
    ensures path { IfOk result (λ reading.
        told_reading reading ≡ path_reading limits.now (V.graph graph.now) head) }
    ensures known { AreReadingsOf (V.graph graph.now) readings.new }
{
    let mut parts = 0;
    match read_node(
        alloc,
        graph,
        head,
        limits.path_depth,
        limits.path_parts,
        &mut parts,
        readings,
    ) {
        Ok(path) => Ok(PathReading::Path(LaidPath::new(alloc, path)?)),
        Err(PathFault::Broken) => Ok(PathReading::Broken),
        Err(PathFault::TooDeep) => Ok(PathReading::TooDeep),
        Err(PathFault::Memory) => Err(AllocError),
    }
}
