//! Constraints that name a shape by their parameter.
ghost use Rattle.std.specs.Prelude.{◌≡◌, ℕ, List, [], ◌∷◌, ◌++◌, All, Contains, map, slice_get, OnOk};
ghost use Rattle.shape_decl.specs.Declarations.{told_decl, values_under};
ghost use Rattle.shape_eval.specs.Content.{Names};
ghost use Rattle.shape_compile.specs.Constraints.{said_by, says};
ghost use Rattle.shape_compile.specs.inner.Shapes.{shape_kind, shape_predicate, stated_of_shape};

use crate::numbers::number_of;
use comp_core::ShapeNo;
use logic_components::{Node, Not, Property};
use shape_decl::ShapeDecl;
use shape_eval::Constraint;
use shape_refs::ShapeOrder;
use shx_term::vocabulary::{SH_NODE, SH_NOT, SH_PROPERTY};
use shx_term::{Id, Memory};

/// A parameter whose value is a shape (SHACL, sections 4.6.1, 4.7.1 and 4.7.2).
#[derive(Clone, Copy, Debug, PartialEq, Eq)]
pub(crate) enum OfShape {
    Not,
    Node,
    Property,
}

impl OfShape {
    fn predicate(self) -> Id
        ensures { result ≡ shape_predicate self }
    {
        match self {
            OfShape::Not => SH_NOT,
            OfShape::Node => SH_NODE,
            OfShape::Property => SH_PROPERTY,
        }
    }

    fn constraint(self, value: Id, shape: ShapeNo) -> Constraint
        ensures { (nodes : List ℕ) → said_by nodes result
            ≡ says (shape_kind self) (Names (slice_get nodes shape ∷ [])) value }
    {
        match self {
            OfShape::Not => Constraint::Not(Not::new(value, shape)),
            OfShape::Node => Constraint::Node(Node::new(value, shape)),
            OfShape::Property => Constraint::Property(Property::new(value, shape)),
        }
    }
}

/// Appends a constraint for each value of the parameter.
pub(crate) fn add_of_shape(
    decl: &ShapeDecl,
    order: &ShapeOrder,
    parameter: OfShape,
    out: &mut Vec<Constraint>,
) -> Result<(), Memory>
    requires { All (Contains order.now.nodes.keys)
        (values_under (told_decl decl.now) (shape_predicate parameter)) }
    ensures { OnOk result (map (said_by order.now.nodes.keys) out.new.items
        ≡ map (said_by order.now.nodes.keys) out.old.items
        ++ stated_of_shape (told_decl decl.now) parameter) }
{
    for value in decl.values_of(parameter.predicate()) {
        out.push(parameter.constraint(*value, number_of(order, *value)))?;
    }
    Ok(())
}
