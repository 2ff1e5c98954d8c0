//! The value of a literal, by the space of its datatype.
ghost use Rattle.std.specs.Prelude.{◌≡◌, false};
ghost use Rattle.shx_term.specs.WideLiterals.{is_wide, is_wide_in};
ghost use Rattle.value_space.specs.Values.{value_of, value_in, is_float, has_datatype, truth_value};
ghost use Rattle.value_space.specs.Values.{is_well_typed};
ghost use Rattle.value_space.specs.inner.Spaces.{space_meant};

use crate::Value;
use crate::datatype::{Space, is_float_datatype, space_of};
use crate::moment::{day_value, is_wide_day, is_wide_moment, moment_value};
use crate::number::{decimal_value, integer_value, is_wide_decimal, is_wide_integer};
use shx_term::{IriText, Literal};

/// Whether a literal is well formed and needs more digits than a [`Value`] has: more than 38 before or behind
/// the point of a number, more than four of a year, or more than nine of a fraction of a second. It takes
/// time linear in the lexical form, as all calls here do.
pub fn wide(literal: &Literal) -> bool
    ensures { result ≡ is_wide literal.now }
{
    is_wide_in(space_of(literal), literal.lexical.as_str().as_bytes())
}

/// Whether the datatype is a binary floating-point type (XML Schema 1.1 part 2, sections 3.3.4 and 3.3.5).
pub fn is_float(literal: &Literal) -> bool
    ensures { result ≡ is_float literal.now }
{
    is_float_datatype(&literal.datatype)
}

/// The value of a literal (SPARQL 1.1, section 17.1).
pub fn value_of(literal: &Literal) -> Value
    requires { is_wide literal.now ≡ false }
    ensures { result ≡ value_of literal.now }
{
    value_in(space_of(literal), literal.lexical.as_str().as_bytes())
}

/// Whether a literal has the datatype and is not ill-typed (SHACL, section 4.1.2).
pub fn matches_datatype(literal: &Literal, datatype: &IriText) -> bool
    requires { is_wide literal.now ≡ false }
    ensures { result ≡ has_datatype literal.now datatype.now }
{
    literal.datatype == *datatype && is_well_typed(value_of(literal))
}

fn is_wide_in(space: Space, text: &[u8]) -> bool
    ensures { result ≡ is_wide_in (space_meant space) text.now }
{
    match space {
        Space::Integers { .. } => is_wide_integer(text),
        Space::Decimals => is_wide_decimal(text),
        Space::Moments => is_wide_moment(text),
        Space::Days => is_wide_day(text),
        Space::Booleans | Space::Strings | Space::Opaques => false,
    }
}

fn value_in(space: Space, text: &[u8]) -> Value
    requires { is_wide_in (space_meant space) text.now ≡ false }
    ensures { result ≡ value_in (space_meant space) text.now }
{
    match space {
        Space::Integers { least, greatest } => integer_value(text, least, greatest),
        Space::Decimals => decimal_value(text),
        Space::Booleans => truth_value(text),
        Space::Strings => Value::Text,
        Space::Moments => moment_value(text),
        Space::Days => day_value(text),
        Space::Opaques => Value::Opaque,
    }
}

// The value of a boolean (XML Schema 1.1 part 2, section 3.3.2).
fn truth_value(text: &[u8]) -> Value
    ensures { result ≡ truth_value text.now }
{
    if text == b"true".as_slice() || text == b"1".as_slice() {
        Value::Bool(true)
    } else if text == b"false".as_slice() || text == b"0".as_slice() {
        Value::Bool(false)
    } else {
        Value::IllTyped
    }
}

fn is_well_typed(value: Value) -> bool
    ensures { result ≡ is_well_typed value }
{
    match value {
        Value::IllTyped => false,
        _ => true,
    }
}
