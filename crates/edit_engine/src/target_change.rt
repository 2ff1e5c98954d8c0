//! Which nodes a change makes target nodes of a shape, and which it leaves none.
ghost use Rattle.std.specs.Prelude.{◌≡◌, ◌<◌, ◌++◌, flat_map, length, nat_eq, slice_get, Contains};
ghost use Rattle.std.specs.Prelude.{IfOk, MatchOption, OnOk};
ghost use Rattle.std.specs.List.{list_any};
ghost use Rattle.std.specs.Option.{option_to_list};
ghost use Rattle.std.specs.Ordering.{nat_cmp};
ghost use Rattle.shx_term.specs.InOrder.{Lists};
ghost use Rattle.shx_term.specs.Members.{SameMembers};
ghost use Rattle.graph_view.specs.Patched.{IsPatch, patched};
ghost use Rattle.path_eval.specs.declared.direction.Direction.{Direction};
ghost use Rattle.path_eval.specs.Instances.{instance_route};
ghost use Rattle.path_eval.specs.Values.{nodes_reached};
ghost use Rattle.shape_eval.specs.Plan.{IsKnownPlan};
ghost use Rattle.shape_eval.specs.Planned.{plan_of};
ghost use Rattle.shape_eval.specs.Targets.{target_nodes, target_reads, targets_of};
ghost use Rattle.edit_engine.specs.Renewal.{IsDifference};
ghost use Rattle.edit_engine.specs.inner.Told.{NoSubclass, instances_told, is_class, is_node_of};
ghost use Rattle.edit_engine.specs.inner.Told.{is_node_of_any, is_subclass, node_told, nodes_told};

use crate::target_reads::target_reads;
use comp_core::ShapeNo;
use graph_view::{GraphView, Key, Reads};
use path_eval::{classes, instances};
use shape_eval::{Plan, Target};
use shx_term::vocabulary::{RDF_TYPE, RDFS_SUB_CLASS_OF};
use shx_term::{Id, Memory, Triple};
use std::alloc::Global;

/// What a change makes of the target of a shape.
#[derive(Drop)]
pub(crate) struct TargetChange {
    /// The nodes that are targets now and were none.
    pub(crate) entering: Vec<Id>,
    /// Those that were targets and are none now.
    pub(crate) leaving: Vec<Id>,
    /// What is read for the target now, where that may be something else than before.
    pub(crate) reads: Option<Reads>,
}

/// What a change of the graph makes of a target. The nodes that the changed triples tell of are tested in
/// both graphs; where a subclass is stated or taken back, these are the instances of the subclass.
///
/// It costs a few look-ups for each such node, in each graph; where a subclass is stated or taken back, also
/// what the subclasses of the classes cost, since what is read for the target is then something else.
pub(crate) fn target_change<V: GraphView, W: GraphView>(
    alloc: Global,
    before: &V,
    after: &W,
    plan: &Plan,
    shape: ShapeNo,
    added: &[Triple],
    removed: &[Triple],
) -> Result<TargetChange, Memory>
    requires before { IsKnownPlan (V.graph before.now).terms (plan_of plan.now).shapes }
    requires after { IsKnownPlan (W.graph after.now).terms (plan_of plan.now).shapes }
    requires shape { shape < length (plan_of plan.now).shapes }
    requires patch { IsPatch (V.graph before.now) added.now removed.now }
    requires patched { W.graph after.now ≡ patched (V.graph before.now) added.now removed.now }
    ensures entering { IfOk result (λ change. IsDifference nat_eq
        (target_nodes (plan_of plan.now).shapes (W.graph after.now) shape)
        (target_nodes (plan_of plan.now).shapes (V.graph before.now) shape) change.entering.items) }
    ensures leaving { IfOk result (λ change. IsDifference nat_eq
        (target_nodes (plan_of plan.now).shapes (V.graph before.now) shape)
        (target_nodes (plan_of plan.now).shapes (W.graph after.now) shape) change.leaving.items) }
    ensures reads { IfOk result (λ change. MatchOption change.reads
        (SameMembers (target_reads (plan_of plan.now).shapes (V.graph before.now) shape)
        (target_reads (plan_of plan.now).shapes (W.graph after.now) shape))
        (λ reads. SameMembers reads (target_reads (plan_of plan.now).shapes (W.graph after.now) shape))) }
{
    // All numbers in either graph have terms.
    let _ = before.pool();
    let _ = after.pool();
    let told = nodes_told(alloc, before, &plan.shape(shape).targets, added, removed)?;
    let mut entering = Vec::new(alloc);
    let mut leaving = Vec::new(alloc);
    for node in &told {
        let was = is_target(alloc, before, plan, shape, *node)?;
        let is = is_target(alloc, after, plan, shape, *node)?;
        match (was, is) {
            (false, true) => entering.push(*node)?,
            (true, false) => leaving.push(*node)?,
            _ => {}
        }
    }
    let reads = reads_anew(alloc, after, plan, shape, added, removed)?;
    Ok(TargetChange {
        entering,
        leaving,
        reads,
    })
}

fn changes_subclasses(triples: &[Triple]) -> bool
    ensures { result ≡ list_any is_subclass triples.now }
{
    triples.iter().any(|t| t.p == RDFS_SUB_CLASS_OF)
}

// The nodes that changed triples tell of, each once: no other becomes a target node or ceases to be one.
fn nodes_told<V: GraphView>(
    alloc: Global,
    view: &V,
    targets: &[Target],
    added: &[Triple],
    removed: &[Triple],
) -> Result<Vec<Id>, Memory>
    ensures { IfOk result (λ nodes. Lists nat_cmp
        (Contains (nodes_told (V.graph view.now) targets.now (added.now ++ removed.now))) nodes.items) }
{
    let mut nodes = Vec::new(alloc);
    for t in added.iter().chain(removed) {
        add_told(&mut nodes, targets, t)?;
        nodes.extend_from_slice(&instances_told(alloc, view, targets, t)?)?;
    }
    nodes.sort_unstable();
    nodes.dedup();
    Ok(nodes)
}

// Adds the nodes that one triple tells of itself.
fn add_told(nodes: &mut Vec<Id>, targets: &[Target], t: &Triple) -> Result<(), Memory>
    ensures { OnOk result (nodes.new.items
        ≡ nodes.old.items ++ flat_map (λ a. option_to_list (node_told a t.now)) targets.now) }
{
    for target in targets {
        if let Some(node) = node_told(*target, t) {
            nodes.push(node)?;
        }
    }
    Ok(())
}

// The instances of a class that is a subclass from now on, or no longer, where there are targets that are
// classes. One graph is enough: up to the first subclass that changed, the two agree.
fn instances_told<V: GraphView>(
    alloc: Global,
    view: &V,
    targets: &[Target],
    t: &Triple,
) -> Result<Vec<Id>, Memory>
    ensures { IfOk result (λ nodes. nodes.items ≡ instances_told (V.graph view.now) targets.now t.now) }
{
    if t.p == RDFS_SUB_CLASS_OF && has_class(targets) {
        instances(alloc, view, t.s, &mut Reads::new(alloc))
    } else {
        Ok(Vec::new(alloc))
    }
}

fn has_class(targets: &[Target]) -> bool
    ensures { result ≡ list_any is_class targets.now }
{
    targets.iter().any(|target| is_class(*target))
}

fn is_class(target: Target) -> bool
    ensures { result ≡ is_class target }
{
    matches!(target, Target::Class(_))
}

// The node that a triple tells of, as a target node of this target or as none.
fn node_told(target: Target, t: &Triple) -> Option<Id>
    ensures { result ≡ node_told target t.now }
{
    match target {
        Target::Node(_) => None,
        Target::Class(_) => (t.p == RDF_TYPE).then_some(t.s),
        Target::SubjectsOf(p) => (t.p == p).then_some(t.s),
        Target::ObjectsOf(p) => (t.p == p).then_some(t.o),
    }
}

// Whether a node is a target node of a shape.
fn is_target<V: GraphView>(
    alloc: Global,
    view: &V,
    plan: &Plan,
    shape: ShapeNo,
    node: Id,
) -> Result<bool, Memory>
    requires shape { shape < length (plan_of plan.now).shapes }
    ensures { IfOk result (λ is. is ≡ is_node_of_any (V.graph view.now)
        (targets_of (slice_get (plan_of plan.now).shapes shape)) node) }
{
    let classes = classes(alloc, view, node, &mut Reads::new(alloc))?;
    for target in &plan.shape(shape).targets {
        if is_node_of(view, *target, node, &classes) {
            return Ok(true);
        }
    }
    Ok(false)
}

// Whether a node, of which these are the classes, is a node of a target.
fn is_node_of<V: GraphView>(view: &V, target: Target, node: Id, classes: &[Id]) -> bool
    requires classes { classes.now ≡ nodes_reached (V.graph view.now) Direction.Forward instance_route node }
    ensures { result ≡ is_node_of (V.graph view.now) node target }
{
    match target {
        Target::Node(other) => other == node,
        Target::Class(class) => classes.contains(&class),
        Target::SubjectsOf(p) => view.count_up_to(&Key::Out(node, p), 1) > 0,
        Target::ObjectsOf(p) => view.count_up_to(&Key::In(p, node), 1) > 0,
    }
}

// What is read for a target now, where a subclass is stated or taken back. Else that is what was.
fn reads_anew<V: GraphView>(
    alloc: Global,
    view: &V,
    plan: &Plan,
    shape: ShapeNo,
    added: &[Triple],
    removed: &[Triple],
) -> Result<Option<Reads>, Memory>
    requires shape { shape < length (plan_of plan.now).shapes }
    ensures { IfOk result (λ reads. MatchOption reads (NoSubclass added.now × NoSubclass removed.now)
        (λ reads. SameMembers reads (target_reads (plan_of plan.now).shapes (V.graph view.now) shape))) }
{
    if !changes_subclasses(added) && !changes_subclasses(removed) {
        return Ok(None);
    }
    Ok(Some(target_reads(alloc, view, plan, shape)?))
}
