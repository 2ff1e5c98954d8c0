//! The targets that a shape states (SHACL, section 2.1.3).
ghost use Rattle.std.specs.Prelude.{◌≡◌, ◌++◌, ℕ, map, IfOk, OnOk};
ghost use Rattle.shape_decl.specs.Declarations.{told_decl};
ghost use Rattle.shape_compile.specs.Meaning.{own_class, targets_stated};

use shape_decl::ShapeDecl;
use shape_eval::Target;
use shx_term::vocabulary::{
    SH_TARGET_CLASS, SH_TARGET_NODE, SH_TARGET_OBJECTS_OF, SH_TARGET_SUBJECTS_OF,
};
use shx_term::{Memory, Pool};
use std::alloc::Global;

/// The targets of a shape: those that are stated, and its own instances where it is a class with an IRI.
pub(crate) fn targets_of(
    alloc: Global,
    pool: &Pool,
    decl: &ShapeDecl,
) -> Result<Vec<Target>, Memory>
    ensures { IfOk result (λ found. found.items ≡ targets_stated pool.now.terms (told_decl decl.now)) }
{
    let mut found = Vec::new(alloc);
    for node in decl.values_of(SH_TARGET_NODE) {
        found.push(Target::Node(*node))?;
    }
    for class in decl.values_of(SH_TARGET_CLASS) {
        found.push(Target::Class(*class))?;
    }
    if decl.is_class && pool.is_iri(decl.node) {
        found.push(Target::Class(decl.node))?;
    }
    for p in decl.values_of(SH_TARGET_SUBJECTS_OF) {
        found.push(Target::SubjectsOf(*p))?;
    }
    for p in decl.values_of(SH_TARGET_OBJECTS_OF) {
        found.push(Target::ObjectsOf(*p))?;
    }
    Ok(found)
}
