//! Counts of the value nodes that conform to a shape (SHACL, section 4.7.3).
ghost use Rattle.std.specs.Prelude.{◌≡◌, ℕ, List, ◌∷◌, ◌++◌, All, Contains, Some, map, slice_get, OnOk};
ghost use Rattle.shx_term.specs.declared.vocabulary.TheConstants.{SH_QUALIFIED_VALUE_SHAPE as QUALIFIED};
ghost use Rattle.shape_decl.specs.Declarations.{told_decl, values_under};
ghost use Rattle.shape_eval.specs.Content.{Names};
ghost use Rattle.shape_compile.specs.Constraints.{said_by, says};
ghost use Rattle.shape_compile.specs.inner.Shapes.{count_kind, count_predicate, stated_of_count};

use crate::numbers::{number_of, numbers_of};
use comp_core::ShapeNo;
use qualified_shapes::{QualifiedMaxCount, QualifiedMinCount};
use shape_decl::ShapeDecl;
use shape_eval::Constraint;
use shape_refs::ShapeOrder;
use shx_term::vocabulary::{
    SH_QUALIFIED_MAX_COUNT, SH_QUALIFIED_MIN_COUNT, SH_QUALIFIED_VALUE_SHAPE,
};
use shx_term::{Id, Memory};
use std::alloc::Global;

/// A parameter that counts the value nodes at the qualified value shape.
#[derive(Clone, Copy, Debug, PartialEq, Eq)]
pub(crate) enum OfCount {
    Least,
    Most,
}

impl OfCount {
    fn predicate(self) -> Id
        ensures { result ≡ count_predicate self }
    {
        match self {
            OfCount::Least => SH_QUALIFIED_MIN_COUNT,
            OfCount::Most => SH_QUALIFIED_MAX_COUNT,
        }
    }

    fn constraint(self, count: Id, shape: ShapeNo, siblings: Vec<ShapeNo>) -> Constraint
        ensures { (nodes : List ℕ) → said_by nodes result ≡ says (count_kind self)
            (Names (slice_get nodes shape ∷ map (slice_get nodes) siblings.items)) count }
    {
        match self {
            OfCount::Least => {
                Constraint::QualifiedMinCount(QualifiedMinCount::new(count, shape, siblings))
            }
            OfCount::Most => {
                Constraint::QualifiedMaxCount(QualifiedMaxCount::new(count, shape, siblings))
            }
        }
    }
}

/// Appends a constraint for each value of the parameter, if there is a qualified value shape.
pub(crate) fn add_of_count(
    alloc: Global,
    decl: &ShapeDecl,
    order: &ShapeOrder,
    siblings: &[Id],
    parameter: OfCount,
    out: &mut Vec<Constraint>,
) -> Result<(), Memory>
    requires shapes { All (Contains order.now.nodes.keys) (values_under (told_decl decl.now) QUALIFIED) }
    requires siblings { All (Contains order.now.nodes.keys) siblings.now }
    ensures { OnOk result (map (said_by order.now.nodes.keys) out.new.items
        ≡ map (said_by order.now.nodes.keys) out.old.items
        ++ stated_of_count siblings.now (told_decl decl.now) parameter) }
{
    for count in decl.values_of(parameter.predicate()) {
        add_at_shapes(alloc, decl, order, siblings, parameter, *count, out)?;
    }
    Ok(())
}

// The constraints of one count.
fn add_at_shapes(
    alloc: Global,
    decl: &ShapeDecl,
    order: &ShapeOrder,
    siblings: &[Id],
    parameter: OfCount,
    count: Id,
    out: &mut Vec<Constraint>,
) -> Result<(), Memory>
    requires shapes { All (Contains order.now.nodes.keys) (values_under (told_decl decl.now) QUALIFIED) }
    requires siblings { All (Contains order.now.nodes.keys) siblings.now }
    ensures { OnOk result (map (said_by order.now.nodes.keys) out.new.items
        ≡ map (said_by order.now.nodes.keys) out.old.items
        ++ map (λ shape. says (count_kind parameter) (Names (Some shape ∷ map Some siblings.now)) count)
        (values_under (told_decl decl.now) QUALIFIED)) }
{
    for shape in decl.values_of(SH_QUALIFIED_VALUE_SHAPE) {
        let others = numbers_of(alloc, order, siblings)?;
        out.push(parameter.constraint(count, number_of(order, *shape), others))?;
    }
    Ok(())
}
