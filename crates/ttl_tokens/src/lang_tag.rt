ghost use Rattle.std.specs.Prelude.{MatchOption};
ghost use Rattle.std.specs.Str.{chars};
ghost use Rattle.ttl_tokens.specs.declared.group.Group.TheVariants.{At};
ghost use Rattle.ttl_tokens.specs.Chars.{PastChar, some, is_letter, is_letter_or_digit};
ghost use Rattle.ttl_tokens.specs.Form.{Empty, Item, Many};
ghost use Rattle.ttl_tokens.specs.inner.Groups.{IsTokenOf, IsNoTokenOf};
ghost use Rattle.ttl_tokens.specs.inner.LangTagForms.{subtag};
ghost use Rattle.ttl_tokens.specs.inner.Leaves.{Leaves};
ghost use Rattle.ttl_tokens.specs.Walks.{Never, Only, Greedy};

use crate::token::TokenKind;
use crate::walk::{first_char, past_char};

/// `LANGTAG`
pub(crate) fn lang_tag(text: &str) -> Option<(TokenKind, &str)>
    ensures { MatchOption result (IsNoTokenOf At (chars text.now))
        (λ t. IsTokenOf At (chars text.now) t.0 (chars t.1.now)) }
{
    let name = past_char(text, '@')?;
    let rest = letter(name)?;
    Some((TokenKind::LangTag, skip_subtags(skip_letters(rest))))
}

fn skip_subtags(text: &str) -> &str
    ensures { Leaves (Many subtag) (chars text.now) Empty (chars result.now) }
{
    let mut rest = text;
    while let Some(behind) = subtag(rest) {
        rest = behind;
    }
    rest
}

fn subtag(text: &str) -> Option<&str>
    ensures { MatchOption result (Never PastChar subtag (chars text.now))
        (λ rest. Leaves (some subtag) (chars text.now) (Many subtag) (chars rest.now)) }
{
    let name = past_char(text, '-')?;
    let rest = letter_or_digit(name)?;
    Some(skip_letters_and_digits(rest))
}

fn letter(text: &str) -> Option<&str>
    ensures { MatchOption result (Never PastChar (Item is_letter) (chars text.now))
        (λ rest. Only PastChar (Item is_letter) (chars text.now) (chars rest.now)) }
{
    let (first, rest) = first_char(text)?;
    if first.is_ascii_alphabetic() {
        Some(rest)
    } else {
        None
    }
}

fn skip_letters(text: &str) -> &str
    ensures { Greedy PastChar (Item is_letter) (chars text.now) (chars result.now) }
{
    let mut rest = text;
    while let Some(behind) = letter(rest) {
        rest = behind;
    }
    rest
}

fn letter_or_digit(text: &str) -> Option<&str>
    ensures { MatchOption result (Never PastChar (Item is_letter_or_digit) (chars text.now))
        (λ rest. Only PastChar (Item is_letter_or_digit) (chars text.now) (chars rest.now)) }
{
    let (first, rest) = first_char(text)?;
    if first.is_ascii_alphanumeric() {
        Some(rest)
    } else {
        None
    }
}

fn skip_letters_and_digits(text: &str) -> &str
    ensures { Greedy PastChar (Item is_letter_or_digit) (chars text.now) (chars result.now) }
{
    let mut rest = text;
    while let Some(behind) = letter_or_digit(rest) {
        rest = behind;
    }
    rest
}
