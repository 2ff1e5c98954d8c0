//! What is read of the terms of counts and bounds: with the plan, and so once for all checks.
ghost use Rattle.std.specs.Prelude.{◌≡◌, ℕ, List, All, map};
ghost use Rattle.shape_eval.specs.Constraint.{IsReadOf};
ghost use Rattle.shape_compile.specs.Constraints.{said_by};

use shape_eval::Constraint;
use shx_term::Pool;
use value_space::value_at;

/// Reads the terms of all counts and bounds.
pub(crate) fn read_terms(pool: &Pool, constraints: &mut Vec<Constraint>)
    ensures said { (nodes : List ℕ) → map (said_by nodes) constraints.new.items
        ≡ map (said_by nodes) constraints.old.items }
    ensures read { All (λ c. IsReadOf c pool.now.terms) constraints.new.items }
{
    for constraint in constraints.iter_mut() {
        read_term(pool, constraint);
    }
}

// Reads the term of a count or a bound; of another constraint nothing.
fn read_term(pool: &Pool, constraint: &mut Constraint)
    ensures said { (nodes : List ℕ) → said_by nodes constraint.new ≡ said_by nodes constraint.old }
    ensures read { IsReadOf constraint.new pool.now.terms }
{
    match constraint {
        Constraint::MinCount(c) => c.read = value_at(pool, c.value),
        Constraint::MaxCount(c) => c.read = value_at(pool, c.value),
        Constraint::MinExclusive(c) => c.read = value_at(pool, c.value),
        Constraint::MinInclusive(c) => c.read = value_at(pool, c.value),
        Constraint::MaxExclusive(c) => c.read = value_at(pool, c.value),
        Constraint::MaxInclusive(c) => c.read = value_at(pool, c.value),
        Constraint::MinLength(c) => c.read = value_at(pool, c.value),
        Constraint::MaxLength(c) => c.read = value_at(pool, c.value),
        Constraint::QualifiedMinCount(c) => c.read = value_at(pool, c.value),
        Constraint::QualifiedMaxCount(c) => c.read = value_at(pool, c.value),
        _ => {}
    }
}
