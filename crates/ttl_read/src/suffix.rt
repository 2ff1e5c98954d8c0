//! What belongs to a string.
ghost use Rattle.std.specs.Prelude.{◌≡◌, ◌≤◌, length, true, MatchOption};
ghost use Rattle.std.specs.Str.{IsCharBoundary};
ghost use Rattle.ttl_tokens.specs.declared.token.Token.{Token as token_type};
ghost use Rattle.ttl_tokens.specs.Tokens.{IsTokenAt};
ghost use Rattle.ttl_tokens.specs.Unescaped.{IsGiven};
ghost use Rattle.ttl_read.specs.Found.{HasSuffix};
ghost use Rattle.ttl_read.specs.Grammar.{is_iri};

use crate::groups::is_iri;
use ttl_tokens::{Token, TokenKind, next_token};

// What belongs to a string: its tag, the IRI of its datatype, or neither.
#[derive(Clone, Copy, Debug)]
pub(crate) enum Suffix {
    Tag(Token),
    Datatype(Token),
    Nothing,
}

pub(crate) fn behind_string(text: &str, string: &Token) -> Suffix
    requires { IsGiven text.now string.now }
    ensures { HasSuffix text.now string.now result }
{
    let Ok(next) = next_token(text, string.end) else {
        return Suffix::Nothing;
    };
    match next.kind {
        TokenKind::LangTag => Suffix::Tag(next),
        TokenKind::Carets => match next_iri(text, next.end) {
            Some(iri) => Suffix::Datatype(iri),
            None => Suffix::Nothing,
        },
        _ => Suffix::Nothing,
    }
}

// The IRI that comes next.
fn next_iri(text: &str, at: usize) -> Option<Token>
    requires within { at ≤ length text.now }
    requires boundary { IsCharBoundary text.now at }
    ensures { MatchOption result
        ((other : token_type) → IsTokenAt text.now at other → is_iri other.kind ≡ true → ⊥)
        (λ iri. IsTokenAt text.now at iri × (is_iri iri.kind ≡ true)) }
{
    match next_token(text, at) {
        Ok(token) => {
            if is_iri(token.kind) {
                Some(token)
            } else {
                None
            }
        }
        Err(_) => None,
    }
}
