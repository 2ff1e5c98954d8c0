//! Constraints that name the shapes of a list.
ghost use Rattle.std.specs.Prelude.{◌≡◌, ℕ, List, ◌++◌, All, Contains, map, slice_get, OnOk};
ghost use Rattle.shape_decl.specs.Declarations.{told_decl};
ghost use Rattle.shape_refs.specs.References.{members_under};
ghost use Rattle.shape_eval.specs.Content.{Names};
ghost use Rattle.shape_compile.specs.Constraints.{said_by, says};
ghost use Rattle.shape_compile.specs.inner.Shapes.{shape_list_kind, shape_list_predicate};
ghost use Rattle.shape_compile.specs.inner.Shapes.{stated_of_shape_list};

use crate::lists::members_of;
use crate::numbers::numbers_of;
use comp_core::ShapeNo;
use logic_components::{And, Or, Xone};
use shape_decl::ShapeDecl;
use shape_eval::Constraint;
use shape_refs::ShapeOrder;
use shx_term::vocabulary::{SH_AND, SH_OR, SH_XONE};
use shx_term::{Id, Memory};
use std::alloc::Global;

/// A parameter whose value is a list of shapes (SHACL, sections 4.6.2 to 4.6.4).
#[derive(Clone, Copy, Debug, PartialEq, Eq)]
pub(crate) enum OfShapeList {
    And,
    Or,
    Xone,
}

impl OfShapeList {
    fn predicate(self) -> Id
        ensures { result ≡ shape_list_predicate self }
    {
        match self {
            OfShapeList::And => SH_AND,
            OfShapeList::Or => SH_OR,
            OfShapeList::Xone => SH_XONE,
        }
    }

    fn constraint(self, head: Id, shapes: Vec<ShapeNo>) -> Constraint
        ensures { (nodes : List ℕ) → said_by nodes result
            ≡ says (shape_list_kind self) (Names (map (slice_get nodes) shapes.items)) head }
    {
        match self {
            OfShapeList::And => Constraint::And(And::new(head, shapes)),
            OfShapeList::Or => Constraint::Or(Or::new(head, shapes)),
            OfShapeList::Xone => Constraint::Xone(Xone::new(head, shapes)),
        }
    }
}

/// Appends a constraint for each list that is a value of the parameter.
pub(crate) fn add_of_shape_list(
    alloc: Global,
    decl: &ShapeDecl,
    order: &ShapeOrder,
    parameter: OfShapeList,
    out: &mut Vec<Constraint>,
) -> Result<(), Memory>
    requires { All (Contains order.now.nodes.keys)
        (members_under (told_decl decl.now) (shape_list_predicate parameter)) }
    ensures { OnOk result (map (said_by order.now.nodes.keys) out.new.items
        ≡ map (said_by order.now.nodes.keys) out.old.items
        ++ stated_of_shape_list (told_decl decl.now) parameter) }
{
    for list in decl.lists_of(parameter.predicate()) {
        let shapes = numbers_of(alloc, order, members_of(list))?;
        out.push(parameter.constraint(list.head, shapes))?;
    }
    Ok(())
}
