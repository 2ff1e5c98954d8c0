//! Closed shapes (SHACL, section 4.8.1).
ghost use Rattle.std.specs.Prelude.{◌≡◌, ℕ, List, ◌++◌, Some, flat_map, map, IfOk, OnOk};
ghost use Rattle.std.specs.Option.{option_map};
ghost use Rattle.shx_term.specs.declared.vocabulary.TheConstants.{SH_CLOSED as CLOSED_PREDICATE};
ghost use Rattle.comp_core.specs.declared.kinds.TheConstants.{CLOSED};
ghost use Rattle.path_eval.specs.Route.{route_of};
ghost use Rattle.shape_decl.specs.Declarations.{told_decl, values_under};
ghost use Rattle.shape_decl.specs.PathReadings.{Read, told_reading};
ghost use Rattle.shx_term.specs.declared.vocabulary.TheConstants.{SH_IGNORED_PROPERTIES as IGNORED};
ghost use Rattle.shape_refs.specs.References.{declared_at, members_under};
ghost use Rattle.shape_compile.specs.Constraints.{closes, each_true, permitted_by, predicate_of, said_by};

use crate::lists::shared_members;
use id_list::IdList;
use path_eval::Path;
use qualified_shapes::Closed;
use shape_decl::{PathReading, ShapeDecl};
use shape_eval::Constraint;
use shape_refs::{Declared, add_members, is_true};
use shx_term::vocabulary::{SH_CLOSED, SH_IGNORED_PROPERTIES, SH_PROPERTY};
use shx_term::{Id, Memory};
use std::alloc::Global;

/// Appends a constraint that the shape is closed, where it says so.
pub(crate) fn add_closed(
    alloc: Global,
    declared: &Declared<'_>,
    decl: &ShapeDecl,
    out: &mut Vec<Constraint>,
) -> Result<(), Memory>
    ensures { OnOk result ((nodes : List ℕ) → map (said_by nodes) out.new.items
        ≡ map (said_by nodes) out.old.items ++ each_true declared.now.pool.now.terms CLOSED
        (closes (map told_decl declared.now.decls.now) (told_decl decl.now))
        (values_under (told_decl decl.now) CLOSED_PREDICATE)) }
{
    for value in decl.values_of(SH_CLOSED) {
        if is_true(declared.pool, *value) {
            let permitted = IdList::new(alloc, permitted_by(alloc, declared, decl)?)?;
            let ignored = ignored_by(alloc, decl)?;
            out.push(Constraint::Closed(Closed::new(*value, permitted, ignored)))?;
        }
    }
    Ok(())
}

// The members of the lists of ignored predicates. Of one list, which is all that a shape may have, they are
// shared.
fn ignored_by(alloc: Global, decl: &ShapeDecl) -> Result<IdList, Memory>
    ensures { IfOk result (λ ignored. ignored ≡ members_under (told_decl decl.now) IGNORED) }
{
    if let [list] = decl.lists_of(SH_IGNORED_PROPERTIES) {
        return shared_members(alloc, list);
    }
    let mut ignored = Vec::new(alloc);
    add_members(decl, SH_IGNORED_PROPERTIES, &mut ignored)?;
    IdList::new(alloc, ignored)
}

// The predicates that are paths of the property shapes of a shape.
fn permitted_by(alloc: Global, declared: &Declared<'_>, decl: &ShapeDecl) -> Result<Vec<Id>, Memory>
    ensures { IfOk result (λ found. found.items
        ≡ permitted_by (map told_decl declared.now.decls.now) (told_decl decl.now)) }
{
    let mut found = Vec::new(alloc);
    for node in decl.values_of(SH_PROPERTY) {
        add_predicate_at(declared, *node, &mut found)?;
    }
    Ok(found)
}

// Appends the predicate that is the path of what is declared of a node, if its path is one.
fn add_predicate_at(declared: &Declared<'_>, node: Id, found: &mut Vec<Id>) -> Result<(), Memory>
    ensures { OnOk result (found.new.items ≡ found.old.items
        ++ flat_map (λ shape. predicate_of shape.path)
        (declared_at (map told_decl declared.now.decls.now) node)) }
{
    match declared.place(node) {
        Some(at) => add_predicate(&declared.decls[at as usize].path, found),
        None => Ok(()),
    }
}

// Appends the predicate that is a path, if the path is one.
fn add_predicate(reading: &Option<PathReading>, found: &mut Vec<Id>) -> Result<(), Memory>
    ensures { OnOk result (found.new.items
        ≡ found.old.items ++ predicate_of (option_map told_reading reading.now)) }
{
    match reading {
        Some(PathReading::Path(path)) => add_if_predicate(path.path(), found),
        _ => Ok(()),
    }
}

fn add_if_predicate(path: &Path, found: &mut Vec<Id>) -> Result<(), Memory>
    ensures { OnOk result (found.new.items
        ≡ found.old.items ++ predicate_of (Some (Read (route_of path.now)))) }
{
    if let Path::Pred(p) = path {
        found.push(*p)?;
    }
    Ok(())
}
