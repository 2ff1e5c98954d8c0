ghost use Rattle.std.specs.Prelude.{◌≡◌, MatchOption};
ghost use Rattle.std.specs.Str.{chars};
ghost use Rattle.ttl_tokens.specs.Chars.{PastChar};
ghost use Rattle.ttl_tokens.specs.inner.Groups.{IsNoTokenOf, IsTokenOf};
ghost use Rattle.ttl_tokens.specs.inner.IriRefForms.{iri_item};
ghost use Rattle.ttl_tokens.specs.Terminals.{iri_ref, is_iri_char};
ghost use Rattle.ttl_tokens.specs.Walks.{Greedy, Never, Only};
ghost use Rattle.ttl_tokens.specs.declared.group.Group.TheVariants.{Angle};

use crate::escapes::uchar;
use crate::token::TokenKind;
use crate::walk::{first_char, past_char};

/// `IRIREF`.
pub(crate) fn iri_ref(text: &str) -> Option<(TokenKind, &str)>
    ensures { MatchOption result (IsNoTokenOf Angle (chars text.now))
        (λ t. IsTokenOf Angle (chars text.now) t.0 (chars t.1.now)) }
{
    match in_angles(text) {
        Some(rest) => Some((TokenKind::IriRef, rest)),
        None => None,
    }
}

fn in_angles(text: &str) -> Option<&str>
    ensures { MatchOption result (Never PastChar iri_ref (chars text.now))
        (λ rest. Only PastChar iri_ref (chars text.now) (chars rest.now)) }
{
    let inside = past_char(text, '<')?;
    let behind = skip_iri_items(inside);
    past_char(behind, '>')
}

fn skip_iri_items(text: &str) -> &str
    ensures { Greedy PastChar iri_item (chars text.now) (chars result.now) }
{
    let mut rest = text;
    while let Some(behind) = iri_item(rest) {
        rest = behind;
    }
    rest
}

// A character of an IRI reference, as itself or escaped.
fn iri_item(text: &str) -> Option<&str>
    ensures { MatchOption result (Never PastChar iri_item (chars text.now))
        (λ rest. Only PastChar iri_item (chars text.now) (chars rest.now)) }
{
    let (first, rest) = first_char(text)?;
    if is_iri_char(first) {
        Some(rest)
    } else {
        uchar(text)
    }
}

fn is_iri_char(character: char) -> bool
    ensures { result ≡ is_iri_char character }
{
    character > ' '
        && !matches!(
            character,
            '<' | '>' | '"' | '{' | '}' | '|' | '^' | '`' | '\\'
        )
}
