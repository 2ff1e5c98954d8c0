//! Constraints of texts: patterns, and languages that are unique.
ghost use Rattle.std.specs.Prelude.{◌≡◌, ℕ, List, ◌++◌, map, OnOk};
ghost use Rattle.shx_term.specs.declared.vocabulary.TheConstants.{SH_PATTERN as PATTERN_PREDICATE};
ghost use Rattle.shx_term.specs.declared.vocabulary.TheConstants.{SH_UNIQUE_LANG as UNIQUE_PREDICATE};
ghost use Rattle.comp_core.specs.declared.kinds.TheConstants.{UNIQUE_LANG};
ghost use Rattle.shape_decl.specs.Declarations.{told_decl, values_under};
ghost use Rattle.shape_eval.specs.Content.{Nothing};
ghost use Rattle.shape_compile.specs.Constraints.{each_pattern, each_true, said_by};
ghost use Rattle.shape_compile.specs.Patterns.{flags_of};
ghost use Rattle.shape_compile.specs.inner.Built.{IsBuiltFor};

use crate::texts::{flags_of, text_at};
use shape_decl::ShapeDecl;
use shape_eval::Constraint;
use shape_refs::is_true;
use shx_term::vocabulary::{SH_PATTERN, SH_UNIQUE_LANG};
use shx_term::{Memory, Pool, Text};
use std::alloc::Global;
use value_components::{Pattern, UniqueLang};

/// Appends a constraint for the pattern of a shape, which was built, if it states one.
pub(crate) fn add_pattern(
    alloc: Global,
    pool: &Pool,
    decl: &ShapeDecl,
    built: Option<shx_outside::Pattern>,
    out: &mut Vec<Constraint>,
) -> Result<(), Memory>
    requires { IsBuiltFor pool.now.terms (told_decl decl.now) built }
    ensures { OnOk result ((nodes : List ℕ) → map (said_by nodes) out.new.items
        ≡ map (said_by nodes) out.old.items ++ each_pattern pool.now.terms
        (flags_of pool.now.terms (told_decl decl.now))
        (values_under (told_decl decl.now) PATTERN_PREDICATE)) }
{
    let Some(built) = built else {
        return Ok(());
    };
    let Some(value) = decl.values_of(SH_PATTERN).first() else {
        return Ok(());
    };
    let text = Text::new(String::from_str(alloc, text_at(pool, *value))?);
    let flags = flags_of(pool, decl);
    out.push(Constraint::Pattern(Pattern::new(*value, text, flags, built)))?;
    Ok(())
}

/// Appends a constraint that languages are unique, where the shape says so.
pub(crate) fn add_unique_lang(
    pool: &Pool,
    decl: &ShapeDecl,
    out: &mut Vec<Constraint>,
) -> Result<(), Memory>
    ensures { OnOk result ((nodes : List ℕ) → map (said_by nodes) out.new.items
        ≡ map (said_by nodes) out.old.items ++ each_true pool.now.terms UNIQUE_LANG Nothing
        (values_under (told_decl decl.now) UNIQUE_PREDICATE)) }
{
    for value in decl.values_of(SH_UNIQUE_LANG) {
        if is_true(pool, *value) {
            out.push(Constraint::UniqueLang(UniqueLang::new(*value)))?;
        }
    }
    Ok(())
}
