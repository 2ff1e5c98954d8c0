ghost use Rattle.std.specs.Prelude.{◌≡◌, ◌+◌, ◌||◌, ◌==◌, MatchOption};
ghost use Rattle.std.specs.Str.{chars};
ghost use Rattle.ttl_tokens.specs.Chars.{PastChar, any_case, word, either_case};
ghost use Rattle.ttl_tokens.specs.inner.NameForms.{IsNoWord, IsWord, is_word};
ghost use Rattle.ttl_tokens.specs.Walks.{Never, Only};

use crate::token::TokenKind;
use crate::walk::{first_char, past_char};

/// Whether a token is a word.
pub(crate) fn is_word(kind: TokenKind) -> bool
    ensures { result ≡ is_word kind }
{
    matches!(
        kind,
        TokenKind::WordA
            | TokenKind::WordTrue
            | TokenKind::WordFalse
            | TokenKind::WordPrefix
            | TokenKind::WordBase
    )
}

/// The word at the front of a text, whatever follows it.
pub(crate) fn word(text: &str) -> Option<(TokenKind, &str)>
    ensures { MatchOption result (IsNoWord (chars text.now))
        (λ t. IsWord (chars text.now) t.0 (chars t.1.now)) }
{
    if let Some(rest) = written(text, "a") {
        return Some((TokenKind::WordA, rest));
    }
    if let Some(rest) = written(text, "true") {
        return Some((TokenKind::WordTrue, rest));
    }
    if let Some(rest) = written(text, "false") {
        return Some((TokenKind::WordFalse, rest));
    }
    if let Some(rest) = in_any_case(text, "prefix") {
        return Some((TokenKind::WordPrefix, rest));
    }
    if let Some(rest) = in_any_case(text, "base") {
        return Some((TokenKind::WordBase, rest));
    }
    None
}

// Past these letters, as written.
fn written<'a>(text: &'a str, letters: &str) -> Option<&'a str>
    ensures { MatchOption result (Never PastChar (word (chars letters.now)) (chars text.now))
        (λ rest. Only PastChar (word (chars letters.now)) (chars text.now) (chars rest.now)) }
{
    let mut rest = text;
    for letter in letters.chars() {
        rest = past_char(rest, letter)?;
    }
    Some(rest)
}

// Past these small letters, in any case.
fn in_any_case<'a>(text: &'a str, letters: &str) -> Option<&'a str>
    ensures { MatchOption result (Never PastChar (any_case (chars letters.now)) (chars text.now))
        (λ rest. Only PastChar (any_case (chars letters.now)) (chars text.now) (chars rest.now)) }
{
    let mut rest = text;
    for letter in letters.chars() {
        rest = either_case(rest, letter)?;
    }
    Some(rest)
}

// Past this small letter or its capital, whose code is less by 32.
fn either_case(text: &str, small: char) -> Option<&str>
    ensures { MatchOption result (Never PastChar (either_case small) (chars text.now))
        (λ rest. Only PastChar (either_case small) (chars text.now) (chars rest.now)) }
{
    let (first, rest) = first_char(text)?;
    if first == small || first as u32 + 32 == small as u32 {
        Some(rest)
    } else {
        None
    }
}
