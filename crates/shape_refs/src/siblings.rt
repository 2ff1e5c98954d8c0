//! The siblings of shapes (SHACL, section 4.7.3).
ghost use Rattle.std.specs.Prelude.{◌≡◌, ◌==◌, ℕ, true, [], filter, flat_map, length, map, not, IfOk};
ghost use Rattle.std.specs.Prelude.{OnOk};
ghost use Rattle.shx_term.specs.Members.{SameMembers};
ghost use Rattle.shx_term.specs.declared.vocabulary.TheConstants.{SH_QUALIFIED_VALUE_SHAPE};
ghost use Rattle.comp_core.specs.TermTests.{is_among};
ghost use Rattle.shape_decl.specs.Declarations.{told_decl, values_under};
ghost use Rattle.shape_refs.specs.References.{declared_at, has_siblings, parents_of, qualified_within};
ghost use Rattle.shape_refs.specs.References.{siblings_of};
ghost use Rattle.shape_refs.specs.inner.Near.{AddsNear, AreNear, row_at};

use crate::declared::Declared;
use crate::truth::is_any_true;
use shape_decl::ShapeDecl;
use shx_term::vocabulary::{
    SH_PROPERTY, SH_QUALIFIED_MAX_COUNT, SH_QUALIFIED_MIN_COUNT, SH_QUALIFIED_VALUE_SHAPE,
    SH_QUALIFIED_VALUE_SHAPES_DISJOINT,
};
use shx_term::{Id, Memory, Pool};
use std::alloc::Global;

/// Whether a shape counts values that are of none of its siblings.
pub(crate) fn has_siblings(pool: &Pool, decl: &ShapeDecl) -> bool
    ensures { result ≡ has_siblings pool.now.terms (told_decl decl.now) }
{
    let is_counted = !decl.values_of(SH_QUALIFIED_MIN_COUNT).is_empty()
        || !decl.values_of(SH_QUALIFIED_MAX_COUNT).is_empty();
    !decl.values_of(SH_QUALIFIED_VALUE_SHAPE).is_empty()
        && is_counted
        && is_any_true(pool, decl.values_of(SH_QUALIFIED_VALUE_SHAPES_DISJOINT))
}

/// The qualified value shapes of the property shapes of a shape.
pub(crate) fn qualified_within(
    alloc: Global,
    declared: &Declared<'_>,
    parent: &ShapeDecl,
) -> Result<Vec<Id>, Memory>
    ensures { IfOk result (λ found. found.items
        ≡ qualified_within (map told_decl declared.now.decls.now) (told_decl parent.now)) }
{
    let mut found = Vec::new(alloc);
    for node in parent.values_of(SH_PROPERTY) {
        found.extend_from_slice(qualified_at(declared, *node))?;
    }
    Ok(found)
}

// The qualified value shapes of what is declared of a node.
fn qualified_at<'a>(declared: &Declared<'a>, node: Id) -> &'a [Id]
    ensures { result.now ≡ flat_map (λ d. values_under d SH_QUALIFIED_VALUE_SHAPE)
        (declared_at (map told_decl declared.now.decls.now) node) }
{
    match declared.place(node) {
        Some(at) => declared.decls[at as usize].values_of(SH_QUALIFIED_VALUE_SHAPE),
        None => &[],
    }
}

/// The siblings of each shape, by its place. Of many property shapes of one parent it takes, and gives, a
/// product of their number.
pub(crate) fn find_siblings(alloc: Global, declared: &Declared<'_>) -> Result<Vec<Vec<Id>>, Memory>
    ensures { IfOk result (λ rows. map (λ row. row.items) rows.items ≡ map
        (siblings_of declared.now.pool.now.terms (map told_decl declared.now.decls.now))
        (map told_decl declared.now.decls.now)) }
{
    let near = gather_near(alloc, declared)?;
    let mut rows = Vec::with_capacity(alloc, near.len())?;
    for at in 0..declared.decls.len() {
        rows.push(siblings_among(alloc, declared, &declared.decls[at], &near[at])?)?;
    }
    Ok(rows)
}

// The siblings of a shape, by what is near it.
fn siblings_among(
    alloc: Global,
    declared: &Declared<'_>,
    decl: &ShapeDecl,
    near: &[Id],
) -> Result<Vec<Id>, Memory>
    requires { has_siblings declared.now.pool.now.terms (told_decl decl.now) ≡ true → SameMembers near.now
        (flat_map (qualified_within (map told_decl declared.now.decls.now))
        (parents_of (map told_decl declared.now.decls.now) decl.now.node)) }
    ensures { IfOk result (λ found. found.items ≡ siblings_of declared.now.pool.now.terms
        (map told_decl declared.now.decls.now) (told_decl decl.now)) }
{
    if !has_siblings(declared.pool, decl) {
        return Ok(Vec::new(alloc));
    }
    let others = others_than(alloc, near, decl.values_of(SH_QUALIFIED_VALUE_SHAPE))?;
    Ok(declared.pool.in_order(others))
}

// Those that are none of the own.
fn others_than(alloc: Global, near: &[Id], own: &[Id]) -> Result<Vec<Id>, Memory>
    ensures { IfOk result (λ found. found.items ≡ filter (λ n. not (is_among n own.now)) near.now) }
{
    near.iter()
        .copied()
        .filter(|n| !own.contains(n))
        .collect(alloc)
}

// What is near each shape, by place, with repeats.
fn gather_near(alloc: Global, declared: &Declared<'_>) -> Result<Vec<Vec<Id>>, Memory>
    ensures { IfOk result (λ rows. AreNear declared.now.pool.now.terms
        (map told_decl declared.now.decls.now) (map told_decl declared.now.decls.now) rows.items) }
{
    let mut rows = empty_rows(alloc, declared.decls.len())?;
    for parent in declared.decls {
        let near = qualified_within(alloc, declared, parent)?;
        add_near(declared, parent.values_of(SH_PROPERTY), &near, &mut rows)?;
    }
    Ok(rows)
}

// Adds what is near by one parent to the row of each of its property shapes that has siblings.
fn add_near(
    declared: &Declared<'_>,
    nodes: &[Id],
    near: &[Id],
    rows: &mut Vec<Vec<Id>>,
) -> Result<(), Memory>
    requires { length rows.old.items ≡ length declared.now.decls.now }
    ensures { OnOk result (AddsNear declared.now.pool.now.terms (map told_decl declared.now.decls.now)
        (λ node. is_among node nodes.now) near.now rows.old.items rows.new.items) }
{
    for node in nodes {
        add_near_at(declared, *node, near, rows)?;
    }
    Ok(())
}

// The same of one of them.
fn add_near_at(
    declared: &Declared<'_>,
    node: Id,
    near: &[Id],
    rows: &mut Vec<Vec<Id>>,
) -> Result<(), Memory>
    requires { length rows.old.items ≡ length declared.now.decls.now }
    ensures { OnOk result (AddsNear declared.now.pool.now.terms (map told_decl declared.now.decls.now)
        (λ other. node == other) near.now rows.old.items rows.new.items) }
{
    let Some(at) = declared.place(node) else {
        return Ok(());
    };
    if has_siblings(declared.pool, &declared.decls[at as usize]) {
        rows[at as usize].extend_from_slice(near)?;
    }
    Ok(())
}

fn empty_rows(alloc: Global, count: usize) -> Result<Vec<Vec<Id>>, Memory>
    ensures long { IfOk result (λ rows. length rows.items ≡ count) }
    ensures empty { IfOk result (λ rows. (i : ℕ) → row_at rows.items i ≡ []) }
{
    let mut rows = Vec::with_capacity(alloc, count)?;
    for _ in 0..count {
        rows.push(Vec::new(alloc))?;
    }
    Ok(rows)
}
