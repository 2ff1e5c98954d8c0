//! The shapes of a plan, by their numbers.
ghost use Rattle.std.specs.Prelude.{◌≡◌, ◌<◌, Contains, IfOk, length, map, slice_get};
ghost use Rattle.shape_decl.specs.Declarations.{Declaration, told_decl};
ghost use Rattle.shape_eval.specs.declared.shape.PlanShape.{PlanShape as ShapeOf};
ghost use Rattle.shape_eval.specs.Plan.{nodes_of};
ghost use Rattle.shape_refs.specs.Order.{IsShapeOrder};
ghost use Rattle.shape_refs.specs.References.{siblings_of};
ghost use Rattle.shape_compile.specs.Meaning.{ShapeMeans};
ghost use Rattle.shape_compile.specs.inner.Built.{AreBuilt, HavePaths};

use crate::plan_shape::plan_shape;
use shape_eval::PlanShape;
use shape_refs::{Declared, ShapeOrder};
use shx_outside::Pattern;
use shx_term::Memory;
use std::alloc::Global;

/// The shapes of a plan in their order. Their patterns were built.
pub(crate) fn plan_shapes(
    alloc: Global,
    declared: &Declared<'_>,
    order: &ShapeOrder,
    mut built: Vec<Option<Pattern>>,
) -> Result<Vec<PlanShape>, Memory>
    requires order { IsShapeOrder declared.now.pool.now.terms
        (map told_decl declared.now.decls.now) order.now.nodes.keys }
    requires siblings { map (λ row. row.items) order.now.siblings.items ≡ map
        (siblings_of declared.now.pool.now.terms (map told_decl declared.now.decls.now))
        (map told_decl declared.now.decls.now) }
    requires paths { HavePaths (map told_decl declared.now.decls.now) }
    requires built { AreBuilt declared.now.pool.now.terms (map told_decl declared.now.decls.now) built.items }
    ensures nodes { IfOk result (λ shapes. nodes_of shapes.items ≡ order.now.nodes.keys) }
    ensures means { IfOk result (λ shapes. (d : Declaration) (shape : ShapeOf)
        → Contains (map told_decl declared.now.decls.now) d → Contains shapes.items shape
        → shape.node ≡ d.node → ShapeMeans declared.now.pool.now.terms
        (map told_decl declared.now.decls.now) order.now.nodes.keys d shape) }
{
    let mut shapes = Vec::with_capacity(alloc, declared.decls.len())?;
    for number in 0..order.len() {
        let at = place_of(declared, order, number);
        let pattern = built[at].take();
        shapes.push(plan_shape(alloc, declared, order, at, pattern)?)?;
    }
    Ok(shapes)
}

// The place of the declaration of a number.
fn place_of(declared: &Declared<'_>, order: &ShapeOrder, number: u32) -> usize
    requires number { number < length order.now.nodes.keys }
    requires order { IsShapeOrder declared.now.pool.now.terms
        (map told_decl declared.now.decls.now) order.now.nodes.keys }
    ensures { slice_get order.now.nodes.keys number
        ≡ slice_get (map (λ d. d.node) (map told_decl declared.now.decls.now)) result }
{
    match declared.place(order.node(number)) {
        Some(at) => at as usize,
        None => unreachable!(),
    }
}
