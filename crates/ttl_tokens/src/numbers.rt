ghost use Rattle.std.specs.Prelude.{◌≡◌, MatchOption};
ghost use Rattle.std.specs.Str.{chars};
ghost use Rattle.ttl_tokens.specs.declared.group.Group.TheVariants.{Number};
ghost use Rattle.ttl_tokens.specs.declared.token.TokenKind.TheVariants.{Dot};
ghost use Rattle.ttl_tokens.specs.Chars.{PastChar, is_digit};
ghost use Rattle.ttl_tokens.specs.Form.{Empty, Item};
ghost use Rattle.ttl_tokens.specs.inner.Groups.{IsTokenOf, IsNoTokenOf};
ghost use Rattle.ttl_tokens.specs.inner.Leaves.{Leaves};
ghost use Rattle.ttl_tokens.specs.inner.NumberForms.{IsNumberOf, fraction, fraction_exponent, is_letter_e};
ghost use Rattle.ttl_tokens.specs.inner.NumberForms.{is_sign, double_behind_digits};
ghost use Rattle.ttl_tokens.specs.Terminals.{none, point, exponent};
ghost use Rattle.ttl_tokens.specs.Walks.{Never, Only, Greedy, Passes};

use crate::token::TokenKind;
use crate::walk::{first_char, past_char};

/// `INTEGER`, `DECIMAL` or `DOUBLE`, or a dot with which none of them begins.
pub(crate) fn number(text: &str) -> Option<(TokenKind, &str)>
    ensures { MatchOption result (IsNoTokenOf Number (chars text.now))
        (λ t. IsTokenOf Number (chars text.now) t.0 (chars t.1.now)) }
{
    let unsigned = skip_sign(text);
    match digit(unsigned) {
        Some(rest) => Some(behind_digits(skip_digits(rest))),
        None => match fraction(unsigned) {
            None => dot(text),
            found => found,
        },
    }
}

fn dot(text: &str) -> Option<(TokenKind, &str)>
    ensures { MatchOption result (Never PastChar point (chars text.now))
        (λ t. (t.0 ≡ Dot) × Only PastChar point (chars text.now) (chars t.1.now)) }
{
    let rest = past_char(text, '.')?;
    Some((TokenKind::Dot, rest))
}

// The kind of a number whose first digits stand before the text, and what is behind it.
fn behind_digits(text: &str) -> (TokenKind, &str)
    ensures { IsNumberOf Empty fraction double_behind_digits (chars text.now) result.0 (chars result.1.now) }
{
    match fraction(text) {
        Some(found) => found,
        None => match exponent(skip_point(text)) {
            Some(rest) => (TokenKind::Double, rest),
            None => (TokenKind::Integer, text),
        },
    }
}

// A point with digits behind it, and the kind of number that it makes.
fn fraction(text: &str) -> Option<(TokenKind, &str)>
    ensures { MatchOption result (Never PastChar fraction (chars text.now))
        (λ t. IsNumberOf none fraction fraction_exponent (chars text.now) t.0 (chars t.1.now)) }
{
    let digits = past_char(text, '.')?;
    let rest = digit(digits)?;
    Some(behind_fraction(skip_digits(rest)))
}

fn behind_fraction(text: &str) -> (TokenKind, &str)
    ensures { IsNumberOf none Empty exponent (chars text.now) result.0 (chars result.1.now) }
{
    match exponent(text) {
        Some(rest) => (TokenKind::Double, rest),
        None => (TokenKind::Decimal, text),
    }
}

fn exponent(text: &str) -> Option<&str>
    ensures { MatchOption result (Never PastChar exponent (chars text.now))
        (λ rest. Leaves exponent (chars text.now) Empty (chars rest.now)) }
{
    let unsigned = skip_sign(letter_e(text)?);
    let rest = digit(unsigned)?;
    Some(skip_digits(rest))
}

fn digit(text: &str) -> Option<&str>
    ensures { MatchOption result (Never PastChar (Item is_digit) (chars text.now))
        (λ rest. Only PastChar (Item is_digit) (chars text.now) (chars rest.now)) }
{
    let (first, rest) = first_char(text)?;
    if first.is_ascii_digit() {
        Some(rest)
    } else {
        None
    }
}

fn skip_digits(text: &str) -> &str
    ensures { Greedy PastChar (Item is_digit) (chars text.now) (chars result.now) }
{
    let mut rest = text;
    while let Some(behind) = digit(rest) {
        rest = behind;
    }
    rest
}

fn letter_e(text: &str) -> Option<&str>
    ensures { MatchOption result (Never PastChar (Item is_letter_e) (chars text.now))
        (λ rest. Only PastChar (Item is_letter_e) (chars text.now) (chars rest.now)) }
{
    let (first, rest) = first_char(text)?;
    if matches!(first, 'E' | 'e') {
        Some(rest)
    } else {
        None
    }
}

fn skip_sign(text: &str) -> &str
    ensures { Passes PastChar (Item is_sign) (chars text.now) (chars result.now) }
{
    match first_char(text) {
        Some(('+' | '-', rest)) => rest,
        _ => text,
    }
}

fn skip_point(text: &str) -> &str
    ensures { Passes PastChar point (chars text.now) (chars result.now) }
{
    match past_char(text, '.') {
        Some(rest) => rest,
        None => text,
    }
}
