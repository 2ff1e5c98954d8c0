//! Which shapes a shape names.
ghost use Rattle.std.specs.Prelude.{◌≡◌, ◌++◌, flat_map, IfOk, OnOk};
ghost use Rattle.shape_decl.specs.Declarations.{told_decl, told_list, values_under};
ghost use Rattle.shape_decl.specs.Shapes.{members_or_none};
ghost use Rattle.shape_decl.specs.Tables.{shape_list_predicates, shape_predicates};
ghost use Rattle.shape_refs.specs.References.{members_under, named_by};

use shape_decl::{ListValue, ShapeDecl};
use shx_term::vocabulary::{
    SH_AND, SH_NODE, SH_NOT, SH_OR, SH_PROPERTY, SH_QUALIFIED_VALUE_SHAPE, SH_XONE,
};
use shx_term::{Id, Memory};
use std::alloc::Global;

const OF_SHAPES: [Id; 4] = [SH_NOT, SH_NODE, SH_PROPERTY, SH_QUALIFIED_VALUE_SHAPE];

const OF_SHAPE_LISTS: [Id; 3] = [SH_AND, SH_OR, SH_XONE];

/// The shapes that a shape names by its parameters.
pub(crate) fn named_by(alloc: Global, decl: &ShapeDecl) -> Result<Vec<Id>, Memory>
    ensures { IfOk result (λ found. found.items ≡ named_by (told_decl decl.now)) }
{
    let mut found = Vec::new(alloc);
    add_values(decl, of_shapes(), &mut found)?;
    add_all_members(decl, of_shape_lists(), &mut found)?;
    Ok(found)
}

fn of_shapes() -> &'static [Id]
    ensures { result.now ≡ shape_predicates }
{
    &OF_SHAPES
}

fn of_shape_lists() -> &'static [Id]
    ensures { result.now ≡ shape_list_predicates }
{
    &OF_SHAPE_LISTS
}

fn add_values(decl: &ShapeDecl, predicates: &[Id], found: &mut Vec<Id>) -> Result<(), Memory>
    ensures { OnOk result (found.new.items
        ≡ found.old.items ++ flat_map (values_under (told_decl decl.now)) predicates.now) }
{
    for p in predicates {
        found.extend_from_slice(decl.values_of(*p))?;
    }
    Ok(())
}

fn add_all_members(decl: &ShapeDecl, predicates: &[Id], found: &mut Vec<Id>) -> Result<(), Memory>
    ensures { OnOk result (found.new.items
        ≡ found.old.items ++ flat_map (members_under (told_decl decl.now)) predicates.now) }
{
    for p in predicates {
        add_members(decl, *p, found)?;
    }
    Ok(())
}

/// Appends the members of the lists that are values of a parameter.
pub fn add_members(decl: &ShapeDecl, predicate: Id, found: &mut Vec<Id>) -> Result<(), Memory>
    ensures { OnOk result (found.new.items
        ≡ found.old.items ++ members_under (told_decl decl.now) predicate) }
{
    for list in decl.lists_of(predicate) {
        found.extend_from_slice(members_of(list))?;
    }
    Ok(())
}

// The members of a list; none where it is no SHACL list.
fn members_of(list: &ListValue) -> &[Id]
    ensures { result.now ≡ members_or_none (told_list list.now).members }
{
    match &list.members {
        Some(members) => members.as_slice(),
        None => &[],
    }
}
