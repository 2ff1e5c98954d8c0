//! One shape of a plan.
ghost use Rattle.std.specs.Prelude.{◌≡◌, ◌<◌, ℕ, All, Contains, IfOk, Some, None, length, map, slice_get};
ghost use Rattle.std.specs.Option.{option_map};
ghost use Rattle.path_eval.specs.Route.{Route, route_of};
ghost use Rattle.shape_decl.specs.Declarations.{Declaration, told_decl};
ghost use Rattle.shape_decl.specs.PathReadings.{Read, RouteReading, told_reading};
ghost use Rattle.shape_refs.specs.References.{references_of, siblings_of};
ghost use Rattle.shape_compile.specs.Meaning.{ShapeMeans, severity_of};
ghost use Rattle.shape_compile.specs.inner.Built.{IsBuiltFor};

use crate::constraints::constraints_of;
use crate::targets::targets_of;
use path_eval::LaidPath;
use shape_decl::{PathReading, ShapeDecl};
use shape_eval::PlanShape;
use shape_refs::{Declared, ShapeOrder, is_any_true};
use shx_outside::Pattern;
use shx_term::vocabulary::{SH_DEACTIVATED, SH_MESSAGE, SH_SEVERITY, SH_VIOLATION};
use shx_term::{Id, Memory};
use std::alloc::Global;

/// What is declared of a shape, as a plan has it. Its pattern was built.
pub(crate) fn plan_shape(
    alloc: Global,
    declared: &Declared<'_>,
    order: &ShapeOrder,
    at: usize,
    built: Option<Pattern>,
) -> Result<PlanShape, Memory>
    requires at { at < length declared.now.decls.now }
    requires siblings { map (λ row. row.items) order.now.siblings.items ≡ map
        (siblings_of declared.now.pool.now.terms (map told_decl declared.now.decls.now))
        (map told_decl declared.now.decls.now) }
    requires named { (d : Declaration) → slice_get (map told_decl declared.now.decls.now) at ≡ Some d
        → All (Contains order.now.nodes.keys) (references_of declared.now.pool.now.terms
        (map told_decl declared.now.decls.now) d) }
    requires path { (d : Declaration) (reading : RouteReading)
        → slice_get (map told_decl declared.now.decls.now) at ≡ Some d → d.path ≡ Some reading
        → (route : Route) × (reading ≡ Read route) }
    requires built { (d : Declaration) → slice_get (map told_decl declared.now.decls.now) at ≡ Some d
        → IsBuiltFor declared.now.pool.now.terms d built }
    ensures { (d : Declaration) → slice_get (map told_decl declared.now.decls.now) at ≡ Some d
        → IfOk result (λ shape. (shape.node ≡ d.node) × ShapeMeans declared.now.pool.now.terms
        (map told_decl declared.now.decls.now) order.now.nodes.keys d shape) }
{
    let decl = &declared.decls[at];
    let siblings = &order.siblings[at];
    Ok(PlanShape {
        node: decl.node,
        path: path_of(&decl.path)?,
        severity: severity_of(decl),
        messages: Vec::from_slice(alloc, decl.values_of(SH_MESSAGE))?,
        deactivated: is_any_true(declared.pool, decl.values_of(SH_DEACTIVATED)),
        targets: targets_of(alloc, declared.pool, decl)?,
        constraints: constraints_of(alloc, declared, order, decl, siblings, built)?,
    })
}

// The path of a shape, if it has one.
fn path_of(reading: &Option<PathReading>) -> Result<Option<LaidPath>, Memory>
    requires { (told : RouteReading) → option_map told_reading reading.now ≡ Some told
        → (route : Route) × (told ≡ Read route) }
    ensures { IfOk result (λ path.
        option_map (λ p. Read (route_of p)) path ≡ option_map told_reading reading.now) }
{
    match reading {
        Some(PathReading::Path(path)) => Ok(Some(path.copy()?)),
        _ => Ok(None),
    }
}

// The severity that is stated, or sh:Violation (SHACL, section 2.1.4).
fn severity_of(decl: &ShapeDecl) -> Id
    ensures { result ≡ severity_of (told_decl decl.now) }
{
    match decl.values_of(SH_SEVERITY).first() {
        Some(severity) => *severity,
        None => SH_VIOLATION,
    }
}
