//! What each shape refers to, by places.
ghost use Rattle.std.specs.Prelude.{◌≡◌, ◌++◌, map, IfOk, OnOk};
ghost use Rattle.shape_decl.specs.Declarations.{told_decl};
ghost use Rattle.shape_refs.specs.References.{references_of, siblings_of};
ghost use Rattle.shape_refs.specs.inner.Places.{if_any, place_of, places_of};

use crate::declared::Declared;
use crate::naming::named_by;
use shx_term::{Id, Memory};
use std::alloc::Global;

/// The places of the shapes that each shape refers to: those that it names, and its siblings, which are
/// given.
pub(crate) fn find_references(
    alloc: Global,
    declared: &Declared<'_>,
    siblings: &[Vec<Id>],
) -> Result<Vec<Vec<u32>>, Memory>
    requires { map (λ row. row.items) siblings.now ≡ map
        (siblings_of declared.now.pool.now.terms (map told_decl declared.now.decls.now))
        (map told_decl declared.now.decls.now) }
    ensures { IfOk result (λ rows. map (λ row. row.items) rows.items ≡ map
        (λ d. places_of (map told_decl declared.now.decls.now) (references_of declared.now.pool.now.terms
        (map told_decl declared.now.decls.now) d)) (map told_decl declared.now.decls.now)) }
{
    let mut rows = Vec::with_capacity(alloc, siblings.len())?;
    for at in 0..declared.decls.len() {
        let mut row = Vec::new(alloc);
        add_places(declared, &named_by(alloc, &declared.decls[at])?, &mut row)?;
        add_places(declared, &siblings[at], &mut row)?;
        rows.push(row)?;
    }
    Ok(rows)
}

// Appends the places of the nodes that are declared.
fn add_places(declared: &Declared<'_>, nodes: &[Id], row: &mut Vec<u32>) -> Result<(), Memory>
    ensures { OnOk result (row.new.items
        ≡ row.old.items ++ places_of (map told_decl declared.now.decls.now) nodes.now) }
{
    for node in nodes {
        add_place(declared, *node, row)?;
    }
    Ok(())
}

// Appends the place of a node, if it has one.
fn add_place(declared: &Declared<'_>, node: Id, row: &mut Vec<u32>) -> Result<(), Memory>
    ensures { OnOk result (row.new.items
        ≡ row.old.items ++ if_any (place_of (map told_decl declared.now.decls.now) node)) }
{
    if let Some(place) = declared.place(node) {
        row.push(place)?;
    }
    Ok(())
}
