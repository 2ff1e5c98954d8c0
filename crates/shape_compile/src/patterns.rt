//! The patterns of all shapes are built before any plan is made of them.
ghost use Rattle.std.specs.Prelude.{◌≡◌, ◌≤◌, ℕ, [], ◌∷◌, map, length, Contains, IfErr, IfOk};
ghost use Rattle.shape_decl.specs.Declarations.{told_decl, values_under};
ghost use Rattle.shx_outside.specs.Told.{StaysAdmitted};
ghost use Rattle.shx_term.specs.declared.vocabulary.TheConstants.{SH_PATTERN as PATTERN_PREDICATE};
ghost use Rattle.shape_refs.specs.Order.{StandInOrder};
ghost use Rattle.shape_compile.specs.Answers.{HasPatternCause, TellsRefused};
ghost use Rattle.shape_compile.specs.Patterns.{AreAdmitted, flags_of, text_at};
ghost use Rattle.shape_compile.specs.inner.Built.{AreBuilt, HaveOnePattern, IsBuiltFor, StopsAtPattern};
ghost use Rattle.shape_compile.specs.inner.Built.{StopsHere};

use crate::CompileFault;
use crate::texts::{flags_of, text_at};
use shape_decl::ShapeDecl;
use shape_refs::Declared;
use shx_outside::{Pattern, PatternFault, PatternHost};
use shx_term::Pool;
use shx_term::vocabulary::SH_PATTERN;
use std::alloc::Global;

/// The pattern of each shape that states one, by place. The host is asked once for each, in the order of the
/// shapes.
pub(crate) fn build_patterns<P: PatternHost>(
    alloc: Global,
    declared: &Declared<'_>,
    host: &mut P,
) -> Result<Vec<Option<Pattern>>, CompileFault>
    requires ascending { StandInOrder declared.now.pool.now.terms (map told_decl declared.now.decls.now) }
    requires one { HaveOnePattern (map told_decl declared.now.decls.now) }
    requires admitted { AreAdmitted (P.admits host.old) declared.now.pool.now.terms
        (map told_decl declared.now.decls.now) }
    ensures built { IfOk result (λ built. AreBuilt declared.now.pool.now.terms
        (map told_decl declared.now.decls.now) built.items) }
    ensures stops { IfErr result (StopsAtPattern declared.now.pool.now.terms
        (map told_decl declared.now.decls.now)) }
    ensures admitted { StaysAdmitted (P.admits host.old) (P.admits host.new) }
    ensures cause { HasPatternCause (P.state host.old).faults (P.state host.new).faults result }
    ensures refused { TellsRefused declared.now.pool.now.terms (map told_decl declared.now.decls.now)
        (P.state host.old).refused (P.state host.new).refused result }
{
    let mut built = Vec::with_capacity(alloc, declared.decls.len())?;
    for decl in declared.decls {
        built.push(build_pattern(alloc, declared.pool, decl, host)?)?;
    }
    Ok(built)
}

// The pattern of a shape, if it states one.
fn build_pattern<P: PatternHost>(
    alloc: Global,
    pool: &Pool,
    decl: &ShapeDecl,
    host: &mut P,
) -> Result<Option<Pattern>, CompileFault>
    requires one { length (values_under (told_decl decl.now) PATTERN_PREDICATE) ≤ 1 }
    requires admitted { (value : ℕ) → Contains (values_under (told_decl decl.now) PATTERN_PREDICATE) value
        → P.admits host.old (flags_of pool.now.terms (told_decl decl.now)) (text_at pool.now.terms value) }
    ensures built { IfOk result (IsBuiltFor pool.now.terms (told_decl decl.now)) }
    ensures stops { IfErr result (StopsHere pool.now.terms (told_decl decl.now)) }
    ensures admitted { StaysAdmitted (P.admits host.old) (P.admits host.new) }
    ensures cause { HasPatternCause (P.state host.old).faults (P.state host.new).faults result }
    ensures refused { TellsRefused pool.now.terms (told_decl decl.now ∷ [])
        (P.state host.old).refused (P.state host.new).refused result }
{
    let Some(value) = decl.values_of(SH_PATTERN).first() else {
        return Ok(None);
    };
    match host.build(alloc, text_at(pool, *value), flags_of(pool, decl)) {
        Ok(pattern) => Ok(Some(pattern)),
        Err(PatternFault::NoPattern) => Err(CompileFault::BadPattern { shape: decl.node }),
        Err(PatternFault::Refused) => Err(CompileFault::PatternRefused { shape: decl.node }),
        Err(PatternFault::Memory) => Err(CompileFault::Memory),
    }
}
