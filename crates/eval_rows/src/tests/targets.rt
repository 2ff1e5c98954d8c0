//! The target nodes of a shape, what is read for them, and from which shapes a validation begins.
ghost use Rattle.std.specs.Prelude.{◌<◌, length};
ghost use Rattle.shape_eval.specs.Plan.{IsKnownPlan};
ghost use Rattle.shape_eval.specs.Planned.{plan_of};

use super::asked::Question;
use super::due::Due;
use super::pairs::shape_of;
use super::words::take_term;
use comp_core::ShapeNo;
use due_view::DueView;
use graph_view::{GraphView, ListGraph, Reads};
use row_tools::RowFault;
use shape_eval::{Plan, eval_target};
use shx_term::{Id, Pool};
use std::alloc::Global;

// The target nodes of a shape.
fn found<V: GraphView>(
    alloc: Global,
    view: &V,
    plan: &Plan,
    shape: ShapeNo,
    reads: &mut Reads,
) -> Result<Vec<Id>, RowFault>
    requires plan { IsKnownPlan (V.graph view.now).terms (plan_of plan.now).shapes }
    requires shape { shape < length (plan_of plan.now).shapes }
{
    match eval_target(alloc, view, plan, shape, reads) {
        Ok(nodes) => Ok(nodes),
        Err(_) => Err(RowFault::Unread),
    }
}

/// Whether a shape has the target nodes that are due. Nothing but these keys may be looked up.
pub(super) fn are_targets(
    alloc: Global,
    graph: &ListGraph,
    plan: &Plan,
    keys: &Reads,
    question: &Question,
) -> Result<bool, RowFault>
    requires { IsKnownPlan graph.now.pool.terms (plan_of plan.now).shapes }
{
    let shape = shape_of(alloc, graph.pool(), plan, question.of)?;
    let mut due = question.due;
    let view = DueView::new(graph, keys);
    let mut reads = Reads::new(alloc);
    for node in &found(alloc, &view, plan, shape, &mut reads)? {
        take_term(graph.pool(), *node, &mut due);
    }
    Ok(due.is_found() && view.are_read(&reads))
}

/// Whether validation begins from the shapes that are due.
pub(super) fn are_begun(pool: &Pool, plan: &Plan, mut due: Due) -> bool {
    for shape in plan.targeted() {
        if *shape < plan.len() {
            take_term(pool, plan.shape(*shape).node, &mut due);
        }
    }
    due.is_found()
}
