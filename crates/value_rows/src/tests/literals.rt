//! Values of literals.
use row_tools::{RowFault, term};
use shx_term::{Literal, Memory, Term};
use std::alloc::Global;
use value_space::{ReadLiteral, Value, is_float, matches_datatype, value_of, wide};

// Whether a literal is as said, and matches its datatype where it is not ill-typed.
fn is_so(alloc: Global, literal: &Literal, said: &str) -> Result<bool, Memory> {
    if wide(literal) {
        return Ok(said == "wide");
    }
    if is_float(literal) {
        return Ok(said == "float");
    }
    let value = format!(in alloc; "{:?}", value_of(literal))?;
    let is_ill = matches!(ReadLiteral::of(literal).value(), Value::IllTyped);
    Ok(value.as_str() == said && is_ill != matches_datatype(literal, &literal.datatype))
}

/// Whether the literal of a word is as said.
pub(super) fn is_value(alloc: Global, word: &str, said: &str) -> Result<bool, RowFault> {
    match &term(alloc, word)? {
        Term::Lit(literal) => Ok(is_so(alloc, literal, said)?),
        _ => Err(RowFault::Unread),
    }
}
