//! The edges of a whole path, laid once for all nodes that it is followed from.
ghost use Rattle.std.specs.Prelude.{◌≡◌, ◌<◌, length, IfOk, OnOk};
ghost use Rattle.graph_view.specs.Graph.{HasTerms};
ghost use Rattle.path_eval.specs.Route.{Route, route_of};
ghost use Rattle.path_eval.specs.Values.{path_reads, path_values};
ghost use Rattle.path_eval.specs.declared.direction.Direction.TheVariants.{Forward};
ghost use Rattle.path_eval.specs.inner.Course.{IsCourseOf};
ghost use Rattle.path_eval.specs.inner.Rows.{IsByPlace};

use crate::Path;
use crate::course::Course;
use crate::edge::Edge;
use crate::path_values::follow_laid;
use crate::rows::by_place;
use graph_view::{GraphView, Notes};
use shx_term::{Id, Memory};
use std::alloc::Global;

/// A path as it is laid, with its edges by the places that they begin at.
#[derive(Drop)]
pub(crate) struct LaidEdges {
    pub(crate) course: Course,
    rows: Vec<Vec<Edge>>,
    ghost by_place: { IsByPlace rows.items course.edges.edges.items },
}

impl LaidEdges {
    /// The edges of this path. It recurses as deep as the path nests.
    pub(crate) fn of(alloc: Global, path: &Path) -> Result<LaidEdges, Memory>
        ensures { IfOk result (λ laid. IsCourseOf (route_of path.now) laid.course) }
    {
        let mut course = Course::new(alloc);
        course.lead(path)?;
        let rows = by_place(alloc, &course.edges.edges, course.edges.places)?;
        Ok(LaidEdges { course, rows })
    }

    /// The nodes to which they lead from a node, in term order. It takes each place at most once with each
    /// node, however closures nest.
    pub(crate) fn follow<V: GraphView, N: Notes>(
        &self,
        alloc: Global,
        view: &V,
        start: Id,
        reads: &mut N,
    ) -> Result<Vec<Id>, Memory>
        ensures values { (route : Route) → IsCourseOf route self.now.course
            → IfOk result (λ found. found.items ≡ path_values (V.graph view.now) route start) }
        ensures known { (route : Route) → IsCourseOf route self.now.course
            → IfOk result (λ found. start < length (V.graph view.now).terms
            → HasTerms (V.graph view.now) found.items) }
        ensures reads { (route : Route) → IsCourseOf route self.now.course
            → OnOk result (N.notes reads.old reads.new (path_reads (V.graph view.now) Forward route start)) }
    {
        let course = &self.course;
        let edges = &course.edges.edges;
        follow_laid(alloc, view, &self.rows, edges, course.end, start, reads)
    }
}
