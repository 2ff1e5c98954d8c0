ghost use Rattle.std.specs.Prelude.{◌≡◌, ◌∷◌, MatchOption};
ghost use Rattle.std.specs.Str.{chars};
ghost use Rattle.ttl_tokens.specs.inner.Groups.{IsTokenOf, IsNoTokenOf, mark_of};
ghost use Rattle.ttl_tokens.specs.declared.group.Group.TheVariants.{Mark, Square};

use crate::TokenKind;
use crate::blanks::skip_blanks;
use crate::walk::{first_char, past_char};

/// A mark of one character, but for the dot and `[`.
pub(crate) fn mark(text: &str) -> Option<(TokenKind, &str)>
    ensures { MatchOption result (IsNoTokenOf Mark (chars text.now))
        (λ t. IsTokenOf Mark (chars text.now) t.0 (chars t.1.now)) }
{
    match first_char(text) {
        Some((first, rest)) => match mark_of(first) {
            Some(kind) => Some((kind, rest)),
            None => None,
        },
        None => None,
    }
}

fn mark_of(c: char) -> Option<TokenKind>
    ensures { result ≡ mark_of c }
{
    match c {
        ';' => Some(TokenKind::Semicolon),
        ',' => Some(TokenKind::Comma),
        ']' => Some(TokenKind::CloseSquare),
        '(' => Some(TokenKind::OpenRound),
        ')' => Some(TokenKind::CloseRound),
        _ => None,
    }
}

/// `[`, or ANON where only white space and comments stand before `]`.
pub(crate) fn square(text: &str) -> Option<(TokenKind, &str)>
    ensures { MatchOption result (IsNoTokenOf Square (chars text.now))
        (λ t. IsTokenOf Square (chars text.now) t.0 (chars t.1.now)) }
{
    match past_char(text, '[') {
        Some(inside) => Some(behind_open(inside)),
        None => None,
    }
}

// What begins with a `[`, by what stands behind it.
fn behind_open(inside: &str) -> (TokenKind, &str)
    ensures { IsTokenOf Square (91 ∷ chars inside.now) result.0 (chars result.1.now) }
{
    match past_char(skip_blanks(inside), ']') {
        Some(rest) => (TokenKind::Anon, rest),
        None => (TokenKind::OpenSquare, inside),
    }
}
