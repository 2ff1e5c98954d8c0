//! Where a term ends.
ghost use Rattle.std.specs.Prelude.{ℕ, MatchOption};
ghost use Rattle.ttl_tokens.specs.Unescaped.{IsGiven};
ghost use Rattle.ttl_read.specs.ReadTerm.{GoesTo};

use crate::groups::{is_string, is_term};
use crate::suffix::{Suffix, behind_string};
use ttl_tokens::Token;

/// The byte behind the longest term that begins at a token, by the tokens alone: whether the term has a fault
/// is not asked. It takes no memory, and time linear in what stands there.
pub fn term_end(text: &str, token: &Token) -> Option<usize>
    requires given { IsGiven text.now token.now }
    ensures { MatchOption result ((end : ℕ) → GoesTo text.now token.now end → ⊥)
        (GoesTo text.now token.now) }
{
    if is_term(token.kind) {
        return Some(token.end);
    }
    if !is_string(token.kind) {
        return None;
    }
    match behind_string(text, token) {
        Suffix::Tag(tag) => Some(tag.end),
        Suffix::Datatype(iri) => Some(iri.end),
        Suffix::Nothing => Some(token.end),
    }
}
