//! A path that is laid once, whoever follows it and from however many nodes.
ghost use Rattle.std.specs.Prelude.{◌≡◌, ◌<◌, length, IfOk, IfSome, OnOk};
ghost use Rattle.std.specs.Option.{ForSome};
ghost use Rattle.graph_view.specs.Graph.{HasTerms};
ghost use Rattle.path_eval.specs.Route.{route_of};
ghost use Rattle.path_eval.specs.Values.{path_reads, path_values};
ghost use Rattle.path_eval.specs.declared.direction.Direction.TheVariants.{Forward};
ghost use Rattle.path_eval.specs.inner.Course.{IsCourseOf};

use crate::Path;
use crate::laid_edges::LaidEdges;
use crate::path_values::values;
use graph_view::{GraphView, Notes};
use shx_term::{Id, Memory};
use std::alloc::Global;
use std::fmt::{Debug, Error, Formatter, Write};
use std::marker::Model;
use std::rc::Rc;

// A path with its edges. A predicate has none, since it is followed by one look-up.
#[derive(Drop)]
struct Laid {
    path: Path,
    edges: Option<LaidEdges>,
    ghost laid: { ForSome edges (λ laid. IsCourseOf (route_of path) laid.course) },
}

/// A path whose edges are laid. Its copies share it, so that a path that many shapes have stands in memory
/// once. Contracts see the path.
#[derive(Drop)]
pub struct LaidPath {
    shared: Rc<Laid>,
}

impl Model for LaidPath {
    ghost use Rattle.path_eval.specs.declared.path.Path.{Path};
    ghost use Rattle.std.proofs.Props.{props};
    ghost use Rattle.std.specs.Coded.{codes};
    ghost use Rattle.path_eval.specs.contracts.path.Path as path;

    ghost Value = { Path };

    ghost coded = { Prim.hlevel (codes, props, path.the_row.coded) };

    ghost view = { λ a. a.shared.value.path };
}

impl LaidPath {
    /// This path. It takes time linear in it, and recurses as deep as it nests.
    pub fn new(alloc: Global, path: Path) -> Result<LaidPath, Memory>
        ensures { IfOk result (λ laid. laid ≡ path) }
    {
        let edges = edges_of(alloc, &path)?;
        let shared = Rc::new(alloc, Laid { path, edges })?;
        Ok(LaidPath { shared })
    }

    /// The path. It takes no memory.
    pub fn path(&self) -> &Path
        ensures { result.now ≡ self.now }
    {
        &self.shared.path
    }

    /// The same path, shared. It takes constant time.
    pub fn copy(&self) -> Result<LaidPath, Memory>
        ensures { IfOk result (λ copy. copy ≡ self.now) }
    {
        let shared = self.shared.clone()?;
        Ok(LaidPath { shared })
    }

    /// The nodes that the path leads to from a node, and what is read for them, as `values` has them. Nothing
    /// is laid.
    pub fn values<V: GraphView, N: Notes>(
        &self,
        alloc: Global,
        view: &V,
        start: Id,
        reads: &mut N,
    ) -> Result<Vec<Id>, Memory>
        ensures values { IfOk result (λ found.
            found.items ≡ path_values (V.graph view.now) (route_of self.now) start) }
        ensures known { IfOk result (λ found. start < length (V.graph view.now).terms
            → HasTerms (V.graph view.now) found.items) }
        ensures reads { OnOk result (N.notes reads.old reads.new
            (path_reads (V.graph view.now) Forward (route_of self.now) start)) }
    {
        let laid: &Laid = &self.shared;
        match &laid.edges {
            Some(edges) => edges.follow(alloc, view, start, reads),
            None => values(alloc, view, &laid.path, start, reads),
        }
    }
}

impl Debug for LaidPath {
    fn fmt<W: Write>(&self, f: &mut Formatter<W>) -> Result<(), Error> {
        self.path().fmt(f)
    }
}

// The edges of a path, unless it is a predicate.
fn edges_of(alloc: Global, path: &Path) -> Result<Option<LaidEdges>, Memory>
    ensures { IfOk result (λ edges. IfSome edges (λ laid. IsCourseOf (route_of path.now) laid.course)) }
{
    match path {
        Path::Pred(_) => Ok(None),
        _ => Ok(Some(LaidEdges::of(alloc, path)?)),
    }
}
