//! From declarations to a plan.
ghost use Rattle.std.specs.Prelude.{◌≡◌, ◌≤◌, map, IfErr, IfOk};
ghost use Rattle.shape_decl.specs.Declarations.{told_decl};
ghost use Rattle.shape_eval.specs.Plan.{IsPlan};
ghost use Rattle.shape_eval.specs.Planned.{plan_of};
ghost use Rattle.shx_outside.specs.Told.{StaysAdmitted};
ghost use Rattle.shape_compile.specs.Accepted.{AreFaultless};
ghost use Rattle.shape_compile.specs.Answers.{HasPatternCause, IsPlanOf, Tells, TellsRefused};
ghost use Rattle.shape_compile.specs.Patterns.{AreAdmitted};
ghost use Rattle.shape_compile.specs.inner.Ready.{AreReady};

use crate::CompileFault;
use crate::patterns::build_patterns;
use crate::plan_shapes::plan_shapes;
use shape_check::accepted_shapes_are_well_formed;
use shape_decl::{
    ShapeDecl, declared_numbers_have_terms, lists_stand_under_their_parameters,
    named_shapes_are_declared, paths_nest_within_their_limit, shapes_are_declared_once,
    shapes_are_listed, values_stand_under_their_predicates,
};
use shape_eval::Plan;
use shape_refs::{Declared, order_shapes};
use shx_outside::PatternHost;
use shx_term::{Limits, Pool};
use std::alloc::Global;

/// The plan of declared shapes, which have no fault, as
/// [`check_shapes`](shape_check::check_shapes) gives them over this pool. Its shapes are numbered so that
/// each names lower numbers alone.
///
/// The host is asked once for each shape that states a pattern, in term order of the shapes, and only where
/// nothing else is in the way. It takes time in proportion to what is declared, but for sorting; siblings are
/// as many as `shape_refs` says. No step is a recursion over shapes.
///
/// # Errors
///
/// What stands in the way of a plan, as [`CompileFault`] says: a cycle before a shape that is too deep, and
/// both before a pattern.
pub fn compile<P: PatternHost>(
    alloc: Global,
    decls: &[ShapeDecl],
    pool: &Pool,
    limits: &Limits,
    patterns: &mut P,
) -> Result<Plan, CompileFault>
    requires faultless { AreFaultless limits.now pool.now.terms (map told_decl decls.now) }
    requires path_depth { limits.now.path_depth ≤ 64 }
    requires reference_depth { limits.now.reference_depth ≤ 64 }
    requires admitted { AreAdmitted (P.admits patterns.old) pool.now.terms (map told_decl decls.now) }
    ensures plan { IfOk result (λ plan.
        IsPlanOf limits.now pool.now.terms (map told_decl decls.now) (plan_of plan)) }
    ensures fits { IfOk result (λ plan. IsPlan pool.now.terms (plan_of plan).shapes) }
    ensures fault { IfErr result (Tells limits.now pool.now.terms (map told_decl decls.now)) }
    ensures cause { HasPatternCause (P.state patterns.old).faults (P.state patterns.new).faults result }
    ensures refused { TellsRefused pool.now.terms (map told_decl decls.now)
        (P.state patterns.old).refused (P.state patterns.new).refused result }
    ensures admitted { StaysAdmitted (P.admits patterns.old) (P.admits patterns.new) }
{
    stand_ready(decls, pool, limits);
    let declared = Declared::of(alloc, decls, pool)?;
    let order = order_shapes(alloc, &declared, limits.reference_depth)?;
    let built = build_patterns(alloc, &declared, patterns)?;
    let shapes = plan_shapes(alloc, &declared, &order, built)?;
    Ok(Plan::from_shapes(alloc, shapes, pool)?)
}

// What a plan needs of declared shapes is so where they have no fault.
fn stand_ready(decls: &[ShapeDecl], pool: &Pool, limits: &Limits)
    requires { AreFaultless limits.now pool.now.terms (map told_decl decls.now) }
    ensures { AreReady limits.now pool.now.terms (map told_decl decls.now) }
{
    accepted_shapes_are_well_formed();
    shapes_are_listed();
    shapes_are_declared_once();
    named_shapes_are_declared();
    values_stand_under_their_predicates();
    lists_stand_under_their_parameters();
    paths_nest_within_their_limit();
    declared_numbers_have_terms();
    let _ = pool.len();
}
