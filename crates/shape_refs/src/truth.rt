//! Which values of parameters say that something is so.
ghost use Rattle.std.specs.Prelude.{◌≡◌};
ghost use Rattle.shape_refs.specs.Truth.{is_any_true, is_true, is_true_literal};

use shx_term::{Id, Literal, Pool, Term};
use value_space::{Value, value_of};

/// Whether one of the numbers is that of a true boolean. It takes no memory.
pub fn is_any_true(pool: &Pool, ids: &[Id]) -> bool
    ensures { result ≡ is_any_true pool.now.terms ids.now }
{
    ids.iter().any(|id| is_true(pool, *id))
}

/// Whether the number is that of a true boolean. It takes no memory.
pub fn is_true(pool: &Pool, id: Id) -> bool
    ensures { result ≡ is_true pool.now.terms id }
{
    if id >= pool.len() {
        return false;
    }
    match pool.term(id) {
        Term::Lit(literal) => is_true_literal(literal),
        Term::Iri(_) => false,
        Term::Blank(_) => false,
    }
}

// No boolean is wide, so its value is never out of reach.
fn is_true_literal(literal: &Literal) -> bool
    ensures { result ≡ is_true_literal literal.now }
{
    literal.datatype.as_str() == "http://www.w3.org/2001/XMLSchema#boolean"
        && matches!(value_of(literal), Value::Bool(true))
}
