//! The target nodes of a shape.
ghost use Rattle.std.specs.Prelude.{◌≡◌, ◌<◌, flat_map, length, map, slice_get, Contains, IfOk, OnOk};
ghost use Rattle.std.specs.Ordering.{nat_cmp};
ghost use Rattle.shx_term.specs.InOrder.{Lists};
ghost use Rattle.shx_term.specs.Members.{SameMembers};
ghost use Rattle.graph_view.specs.Graph.{HasTerms};
ghost use Rattle.shape_eval.specs.Planned.{plan_of};
ghost use Rattle.shape_eval.specs.Plan.{IsKnownPlan, target_number};
ghost use Rattle.shape_eval.specs.Targets.{nodes_of_target, reads_of_target};
ghost use Rattle.shape_eval.specs.Targets.{target_nodes, target_reads, targets_of};

use crate::{Plan, Target};
use comp_core::ShapeNo;
use graph_view::{GraphView, Notes};
use path_eval::instances_unsorted;
use shx_term::{Id, Memory, Triple};
use std::alloc::Global;

/// The target nodes of a shape (SHACL, section 2.1.3) in term order, each once. It adds the keys that are
/// read for them, and no others. It costs a look-up for each target, the instances of each class, and a sort.
pub fn eval_target<V: GraphView, N: Notes>(
    alloc: Global,
    view: &V,
    plan: &Plan,
    shape: ShapeNo,
    reads: &mut N,
) -> Result<Vec<Id>, Memory>
    requires plan { IsKnownPlan (V.graph view.now).terms (plan_of plan.now).shapes }
    requires shape { shape < length (plan_of plan.now).shapes }
    ensures nodes { IfOk result (λ found.
        found.items ≡ target_nodes (plan_of plan.now).shapes (V.graph view.now) shape) }
    ensures known { IfOk result (λ found. HasTerms (V.graph view.now) found.items) }
    ensures reads { OnOk result (N.notes reads.old reads.new
        (target_reads (plan_of plan.now).shapes (V.graph view.now) shape)) }
{
    let found = nodes_found(alloc, view, plan, shape, reads)?;
    Ok(view.pool().in_order(found))
}

/// The same nodes in the order of their numbers, each once. It reads the same keys, and its sort compares no
/// terms.
pub fn eval_target_by_number<V: GraphView, N: Notes>(
    alloc: Global,
    view: &V,
    plan: &Plan,
    shape: ShapeNo,
    reads: &mut N,
) -> Result<Vec<Id>, Memory>
    requires plan { IsKnownPlan (V.graph view.now).terms (plan_of plan.now).shapes }
    requires shape { shape < length (plan_of plan.now).shapes }
    ensures nodes { IfOk result (λ found. Lists nat_cmp
        (Contains (target_nodes (plan_of plan.now).shapes (V.graph view.now) shape)) found.items) }
    ensures known { IfOk result (λ found. HasTerms (V.graph view.now) found.items) }
    ensures reads { OnOk result (N.notes reads.old reads.new
        (target_reads (plan_of plan.now).shapes (V.graph view.now) shape)) }
{
    let mut found = nodes_found(alloc, view, plan, shape, reads)?;
    found.sort_unstable();
    found.dedup();
    Ok(found)
}

// The nodes of all targets in any order, some of them perhaps more than once.
fn nodes_found<V: GraphView, N: Notes>(
    alloc: Global,
    view: &V,
    plan: &Plan,
    shape: ShapeNo,
    reads: &mut N,
) -> Result<Vec<Id>, Memory>
    requires plan { IsKnownPlan (V.graph view.now).terms (plan_of plan.now).shapes }
    requires shape { shape < length (plan_of plan.now).shapes }
    ensures nodes { IfOk result (λ found. SameMembers found.items
        (flat_map (nodes_of_target (V.graph view.now))
        (targets_of (slice_get (plan_of plan.now).shapes shape)))) }
    ensures known { IfOk result (λ found. HasTerms (V.graph view.now) found.items) }
    ensures reads { OnOk result (N.notes reads.old reads.new
        (target_reads (plan_of plan.now).shapes (V.graph view.now) shape)) }
{
    let mut found = Vec::new(alloc);
    for target in &plan.shape(shape).targets {
        let nodes = nodes_of_target(alloc, view, *target, reads)?;
        found.extend_from_slice(&nodes)?;
    }
    Ok(found)
}

// The nodes of one target, in any order.
fn nodes_of_target<V: GraphView, N: Notes>(
    alloc: Global,
    view: &V,
    target: Target,
    reads: &mut N,
) -> Result<Vec<Id>, Memory>
    requires { target_number target < length (V.graph view.now).terms }
    ensures nodes { IfOk result (λ found.
        SameMembers found.items (nodes_of_target (V.graph view.now) target)) }
    ensures known { IfOk result (λ found. HasTerms (V.graph view.now) found.items) }
    ensures reads { OnOk result (N.notes reads.old reads.new (reads_of_target (V.graph view.now) target)) }
{
    match target {
        Target::Node(node) => Ok(vec![in alloc; node]?),
        Target::Class(class) => instances_unsorted(alloc, view, class, reads),
        Target::SubjectsOf(p) => {
            let triples = view.triples_with_unsorted(alloc, p, reads)?;
            subjects_in(alloc, &triples)
        }
        Target::ObjectsOf(p) => {
            let triples = view.triples_with_unsorted(alloc, p, reads)?;
            objects_in(alloc, &triples)
        }
    }
}

fn subjects_in(alloc: Global, triples: &[Triple]) -> Result<Vec<Id>, Memory>
    ensures { IfOk result (λ found. found.items ≡ map (λ t. t.s) triples.now) }
{
    triples.iter().map(|t| t.s).collect(alloc)
}

fn objects_in(alloc: Global, triples: &[Triple]) -> Result<Vec<Id>, Memory>
    ensures { IfOk result (λ found. found.items ≡ map (λ t. t.o) triples.now) }
{
    triples.iter().map(|t| t.o).collect(alloc)
}
