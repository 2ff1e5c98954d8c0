//! What is read of a term, before others are compared with it.
ghost use Rattle.std.specs.Prelude.{◌≡◌};
ghost use Rattle.value_space.specs.ReadValues.{value_at, value_read};

use crate::Value;
use crate::values::{value_of, wide};
use shx_term::{Id, Pool, Term};

/// The value of a term; none where it is no literal, or is wide. It takes time linear in the lexical form,
/// and no memory.
pub fn value_read(term: &Term) -> Option<Value>
    ensures { result ≡ value_read term.now }
{
    match term {
        Term::Lit(literal) if !wide(literal) => Some(value_of(literal)),
        _ => None,
    }
}

/// The same of the term that a number has, if it has one.
pub fn value_at(pool: &Pool, id: Id) -> Option<Value>
    ensures { result ≡ value_at pool.now.terms id }
{
    if id >= pool.len() {
        return None;
    }
    value_read(pool.term(id))
}
