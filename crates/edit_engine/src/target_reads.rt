//! What is read for the target of a shape, without going over its nodes.
ghost use Rattle.std.specs.Prelude.{◌≡◌, ◌<◌, length, IfOk, OnOk};
ghost use Rattle.shx_term.specs.Members.{Adds, SameMembers};
ghost use Rattle.path_eval.specs.declared.direction.Direction.{Direction};
ghost use Rattle.path_eval.specs.Instances.{instance_route};
ghost use Rattle.path_eval.specs.Route.{route_of};
ghost use Rattle.path_eval.specs.Values.{path_reads};
ghost use Rattle.shape_eval.specs.Planned.{plan_of};
ghost use Rattle.shape_eval.specs.Targets.{reads_of_target, target_reads};
ghost use Rattle.edit_engine.specs.inner.Told.{subclass_route};

use comp_core::ShapeNo;
use graph_view::{GraphView, Key, Reads};
use path_eval::{Path, values};
use shape_eval::{Plan, Target};
use shx_term::vocabulary::{RDF_TYPE, RDFS_SUB_CLASS_OF};
use shx_term::{Id, Memory};
use std::alloc::Global;

/// The keys that are read to find the target nodes of a shape. It costs what the subclasses of its classes
/// cost, and no look-up of their instances.
pub(crate) fn target_reads<V: GraphView>(
    alloc: Global,
    view: &V,
    plan: &Plan,
    shape: ShapeNo,
) -> Result<Reads, Memory>
    requires shape { shape < length (plan_of plan.now).shapes }
    ensures { IfOk result (λ reads.
        SameMembers reads (target_reads (plan_of plan.now).shapes (V.graph view.now) shape)) }
{
    let below = subclasses(alloc)?;
    let mut reads = Reads::new(alloc);
    for target in &plan.shape(shape).targets {
        add_reads(alloc, view, *target, &below, &mut reads)?;
    }
    reads.pack(alloc)?;
    Ok(reads)
}

// The path from a class to its subclasses, and to itself.
fn subclasses(alloc: Global) -> Result<Path, Memory>
    ensures { IfOk result (λ path. route_of path ≡ subclass_route) }
{
    let up = Path::Pred(RDFS_SUB_CLASS_OF);
    let down = Path::Inverse(Box::new(alloc, up)?);
    Ok(Path::ZeroOrMore(Box::new(alloc, down)?))
}

// Adds what is read for one target.
fn add_reads<V: GraphView>(
    alloc: Global,
    view: &V,
    target: Target,
    below: &Path,
    reads: &mut Reads,
) -> Result<(), Memory>
    requires below { route_of below.now ≡ subclass_route }
    ensures { OnOk result (Adds reads.old reads.new (reads_of_target (V.graph view.now) target)) }
{
    match target {
        Target::Node(_) => Ok(()),
        Target::Class(class) => add_class_reads(alloc, view, class, below, reads),
        Target::SubjectsOf(p) | Target::ObjectsOf(p) => reads.add(Key::Predicate(p)),
    }
}

// Adds what is read for the instances of a class: under each of its subclasses their subclasses, and their
// instances.
fn add_class_reads<V: GraphView>(
    alloc: Global,
    view: &V,
    class: Id,
    below: &Path,
    reads: &mut Reads,
) -> Result<(), Memory>
    requires below { route_of below.now ≡ subclass_route }
    ensures { OnOk result (Adds reads.old reads.new
        (path_reads (V.graph view.now) Direction.Backward instance_route class)) }
{
    for subclass in &values(alloc, view, below, class, reads)? {
        reads.add(Key::In(RDF_TYPE, *subclass))?;
    }
    Ok(())
}
