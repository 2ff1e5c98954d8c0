ghost use Rattle.std.specs.Prelude.{◌≡◌, MatchOption};
ghost use Rattle.std.specs.Str.{chars};
ghost use Rattle.ttl_tokens.specs.Chars.{PastChar, is_hex};
ghost use Rattle.ttl_tokens.specs.inner.EscapeForms.{behind_2_zeros, behind_3_zeros, below_surrogates};
ghost use Rattle.ttl_tokens.specs.inner.EscapeForms.{long_uchar_rest, low_plane, plane_16, uchar_rest};
ghost use Rattle.ttl_tokens.specs.Terminals.{hex_2, hex_3, hex_4, hex, four_digits, eight_digits, uchar};
ghost use Rattle.ttl_tokens.specs.Terminals.{echar, is_d, is_escaped};
ghost use Rattle.ttl_tokens.specs.Form.{Item, Or};
ghost use Rattle.ttl_tokens.specs.Walks.{Never, Only};

use crate::classes::is_hex;
use crate::walk::{first_char, past_char, two_chars};

/// `UCHAR`: `\u` with four digits, or `\U` with eight, of a scalar value.
pub(crate) fn uchar(text: &str) -> Option<&str>
    ensures { MatchOption result (Never PastChar uchar (chars text.now))
        (λ rest. Only PastChar uchar (chars text.now) (chars rest.now)) }
{
    let behind = past_char(text, '\\')?;
    uchar_rest(behind)
}

/// `ECHAR` or `UCHAR`.
pub(crate) fn escape(text: &str) -> Option<&str>
    ensures { MatchOption result (Never PastChar (Or echar uchar) (chars text.now))
        (λ rest. Only PastChar (Or echar uchar) (chars text.now) (chars rest.now)) }
{
    let behind = past_char(text, '\\')?;
    match escaped(behind) {
        Some(rest) => Some(rest),
        None => uchar_rest(behind),
    }
}

fn escaped(text: &str) -> Option<&str>
    ensures { MatchOption result (Never PastChar (Item is_escaped) (chars text.now))
        (λ rest. Only PastChar (Item is_escaped) (chars text.now) (chars rest.now)) }
{
    let (first, rest) = first_char(text)?;
    if is_escaped(first) { Some(rest) } else { None }
}

fn uchar_rest(text: &str) -> Option<&str>
    ensures { MatchOption result (Never PastChar uchar_rest (chars text.now))
        (λ rest. Only PastChar uchar_rest (chars text.now) (chars rest.now)) }
{
    match past_char(text, 'u') {
        Some(digits) => four_digits(digits),
        None => long_uchar_rest(text),
    }
}

fn long_uchar_rest(text: &str) -> Option<&str>
    ensures { MatchOption result (Never PastChar long_uchar_rest (chars text.now))
        (λ rest. Only PastChar long_uchar_rest (chars text.now) (chars rest.now)) }
{
    let digits = past_char(text, 'U')?;
    eight_digits(digits)
}

// Eight digits of a scalar value, which is at most `0010FFFF`.
fn eight_digits(text: &str) -> Option<&str>
    ensures { MatchOption result (Never PastChar eight_digits (chars text.now))
        (λ rest. Only PastChar eight_digits (chars text.now) (chars rest.now)) }
{
    let digits = two_chars(text, '0', '0')?;
    behind_2_zeros(digits)
}

fn behind_2_zeros(text: &str) -> Option<&str>
    ensures { MatchOption result (Never PastChar behind_2_zeros (chars text.now))
        (λ rest. Only PastChar behind_2_zeros (chars text.now) (chars rest.now)) }
{
    match past_char(text, '0') {
        Some(digits) => behind_3_zeros(digits),
        None => plane_16(text),
    }
}

fn behind_3_zeros(text: &str) -> Option<&str>
    ensures { MatchOption result (Never PastChar behind_3_zeros (chars text.now))
        (λ rest. Only PastChar behind_3_zeros (chars text.now) (chars rest.now)) }
{
    match past_char(text, '0') {
        Some(digits) => four_digits(digits),
        None => low_plane(text),
    }
}

// Planes 1 to 15.
fn low_plane(text: &str) -> Option<&str>
    ensures { MatchOption result (Never PastChar low_plane (chars text.now))
        (λ rest. Only PastChar low_plane (chars text.now) (chars rest.now)) }
{
    let (first, digits) = first_char(text)?;
    if first != '0' && is_hex(first) {
        hex_4(digits)
    } else {
        None
    }
}

fn plane_16(text: &str) -> Option<&str>
    ensures { MatchOption result (Never PastChar plane_16 (chars text.now))
        (λ rest. Only PastChar plane_16 (chars text.now) (chars rest.now)) }
{
    let digits = two_chars(text, '1', '0')?;
    hex_4(digits)
}

// Four digits, but none of the surrogates D800 to DFFF.
fn four_digits(text: &str) -> Option<&str>
    ensures { MatchOption result (Never PastChar four_digits (chars text.now))
        (λ rest. Only PastChar four_digits (chars text.now) (chars rest.now)) }
{
    let (first, digits) = first_char(text)?;
    if is_d(first) {
        below_surrogates(digits)
    } else if is_hex(first) {
        hex_3(digits)
    } else {
        None
    }
}

// What stands behind a D.
fn below_surrogates(text: &str) -> Option<&str>
    ensures { MatchOption result (Never PastChar below_surrogates (chars text.now))
        (λ rest. Only PastChar below_surrogates (chars text.now) (chars rest.now)) }
{
    let (first, digits) = first_char(text)?;
    if first >= '0' && first <= '7' {
        hex_2(digits)
    } else {
        None
    }
}

fn hex_4(text: &str) -> Option<&str>
    ensures { MatchOption result (Never PastChar hex_4 (chars text.now))
        (λ rest. Only PastChar hex_4 (chars text.now) (chars rest.now)) }
{
    let behind = hex(text)?;
    hex_3(behind)
}

fn hex_3(text: &str) -> Option<&str>
    ensures { MatchOption result (Never PastChar hex_3 (chars text.now))
        (λ rest. Only PastChar hex_3 (chars text.now) (chars rest.now)) }
{
    let behind = hex(text)?;
    hex_2(behind)
}

/// Two hexadecimal digits.
pub(crate) fn hex_2(text: &str) -> Option<&str>
    ensures { MatchOption result (Never PastChar hex_2 (chars text.now))
        (λ rest. Only PastChar hex_2 (chars text.now) (chars rest.now)) }
{
    let behind = hex(text)?;
    hex(behind)
}

fn hex(text: &str) -> Option<&str>
    ensures { MatchOption result (Never PastChar hex (chars text.now))
        (λ rest. Only PastChar hex (chars text.now) (chars rest.now)) }
{
    let (first, rest) = first_char(text)?;
    if is_hex(first) { Some(rest) } else { None }
}

fn is_d(character: char) -> bool
    ensures { result ≡ is_d character }
{
    character == 'D' || character == 'd'
}

fn is_escaped(character: char) -> bool
    ensures { result ≡ is_escaped character }
{
    matches!(character, 't' | 'b' | 'n' | 'r' | 'f' | '"' | '\'' | '\\')
}
