//! Of which kind a value is.
ghost use Rattle.std.specs.Prelude.{◌≡◌, Bool, false, not, find, slice_get};
ghost use Rattle.std.specs.Option.{option_map_or};
ghost use Rattle.shx_term.specs.declared.term.Literal.{Literal};
ghost use Rattle.shape_check.specs.Faults.{has_unknown_flag};
ghost use Rattle.shape_check.specs.Kinds.{is_boolean, is_integer, is_message, is_of_kind, is_string};
ghost use Rattle.shape_check.specs.Kinds.{literal_is};

use crate::ValueKind;
use shx_term::vocabulary::{
    SH_BLANK_NODE, SH_BLANK_NODE_OR_IRI, SH_BLANK_NODE_OR_LITERAL, SH_IRI, SH_IRI_OR_LITERAL,
    SH_LITERAL,
};
use shx_term::{Id, Literal, Pool, Term};
use value_space::{Value, value_of, wide};

const NODE_KINDS: [Id; 6] = [
    SH_IRI,
    SH_BLANK_NODE,
    SH_LITERAL,
    SH_BLANK_NODE_OR_IRI,
    SH_BLANK_NODE_OR_LITERAL,
    SH_IRI_OR_LITERAL,
];

/// The first of some numbers whose term is of another kind.
pub(crate) fn first_unfit(pool: &Pool, kind: ValueKind, ids: &[Id]) -> Option<Id>
    ensures { result ≡ find (λ n. not (is_of_kind pool.now.terms kind n)) ids.now }
{
    ids.iter().copied().find(|id| !is_of_kind(pool, kind, *id))
}

/// Whether the term of a number is of a kind; where no term has the number, it is of none but `Anything`.
pub(crate) fn is_of_kind(pool: &Pool, kind: ValueKind, id: Id) -> bool
    ensures { result ≡ is_of_kind pool.now.terms kind id }
{
    match kind {
        ValueKind::Anything => true,
        ValueKind::Iri => pool.is_iri(id),
        ValueKind::IriOrLiteral => pool.is_iri(id) || literal_at(pool, id).is_some(),
        ValueKind::IriOrBlank => pool.is_iri_or_blank(id),
        ValueKind::Literal => literal_at(pool, id).is_some(),
        ValueKind::String => literal_at(pool, id).is_some_and(is_string),
        ValueKind::Message => literal_at(pool, id).is_some_and(is_message),
        ValueKind::Boolean => literal_at(pool, id).is_some_and(is_boolean),
        ValueKind::Integer => literal_at(pool, id).is_some_and(is_integer),
        ValueKind::NodeKind => NODE_KINDS.contains(&id),
    }
}

/// The first of some numbers whose term is a literal with a character that is none of the flags of a pattern.
pub(crate) fn first_with_unknown_flag(pool: &Pool, ids: &[Id]) -> Option<Id>
    ensures { result ≡ find (λ n. literal_is has_unknown_flag (slice_get pool.now.terms n)) ids.now }
{
    ids.iter()
        .copied()
        .find(|id| literal_at(pool, *id).is_some_and(has_unknown_flag))
}

fn literal_at(pool: &Pool, id: Id) -> Option<&Literal>
    ensures { (test : Literal → Bool) → literal_is test (slice_get pool.now.terms id)
        ≡ option_map_or (λ literal. test literal.now) result false }
{
    if id >= pool.len() {
        return None;
    }
    match pool.term(id) {
        Term::Lit(literal) => Some(literal),
        Term::Iri(_) => None,
        Term::Blank(_) => None,
    }
}

fn is_string(literal: &Literal) -> bool
    ensures { result ≡ is_string literal.now }
{
    literal.datatype.as_str() == "http://www.w3.org/2001/XMLSchema#string"
}

fn is_message(literal: &Literal) -> bool
    ensures { result ≡ is_message literal.now }
{
    literal.tag.is_some() || is_string(literal)
}

// No boolean is wide, so its value is never out of reach.
fn is_boolean(literal: &Literal) -> bool
    ensures { result ≡ is_boolean literal.now }
{
    literal.datatype.as_str() == "http://www.w3.org/2001/XMLSchema#boolean"
        && !matches!(value_of(literal), Value::IllTyped)
}

// A wide integer is well typed, though its value is out of reach.
fn is_integer(literal: &Literal) -> bool
    ensures { result ≡ is_integer literal.now }
{
    literal.datatype.as_str() == "http://www.w3.org/2001/XMLSchema#integer"
        && (wide(literal) || !matches!(value_of(literal), Value::IllTyped))
}

fn has_unknown_flag(literal: &Literal) -> bool
    ensures { result ≡ has_unknown_flag literal.now }
{
    literal
        .lexical
        .as_str()
        .bytes()
        .any(|byte| !matches!(byte, b'i' | b'm' | b's' | b'x'))
}
