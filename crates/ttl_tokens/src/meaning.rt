ghost use Rattle.std.specs.Prelude.{◌≡◌, ℕ, ◌≤◌, List, ◌++◌, IfOk, OnOk, OnErr, drop, take, string_bytes};
ghost use Rattle.std.specs.Prelude.{is_ok, if◌then◌else◌};
ghost use Rattle.std.specs.Str.{chars, encode_utf8_all};
ghost use Rattle.ttl_tokens.specs.Unescaped.{char_of, digit_number, escape_length, escape_number};
ghost use Rattle.ttl_tokens.specs.Unescaped.{escaped_char, IsGiven, meaning, number_of, undone};

use crate::Token;
use crate::content::content;
use crate::cut::cut_at;
use crate::walk::first_char;
use std::alloc::{AllocError, Global};

/// What a token of the text stands for, with its escapes undone (Turtle 1.1, section 6.4): of an IRI
/// reference and a string what stands between the marks, of a `PNAME_LN` the local name, of any other token
/// its text. It takes time and memory in proportion to the token, and fails only for want of memory.
pub fn unescape(alloc: Global, text: &str, token: &Token) -> Result<String, AllocError>
    requires given { IsGiven text.now token.now }
    ensures meaning { IfOk result (λ s. s.bytes.items ≡ encode_utf8_all (meaning text.now token.now)) }
{
    let mut out = String::new(alloc);
    unescape_onto(&mut out, text, token)?;
    Ok(out)
}

/// As `unescape`, behind what a string has: it takes no memory where there is room for the token's text.
/// Where memory is refused, the string is as before.
pub fn unescape_onto(out: &mut String, text: &str, token: &Token) -> Result<(), AllocError>
    requires given { IsGiven text.now token.now }
    ensures meaning { string_bytes out.new ≡ (if is_ok result
        then string_bytes out.old ++ encode_utf8_all (meaning text.now token.now) else string_bytes out.old) }
{
    let before = out.len();
    let piece = &text[token.start..token.end];
    match undo_onto(out, content(piece, token.kind)) {
        Ok(()) => Ok(()),
        Err(error) => {
            out.truncate(before);
            Err(error)
        }
    }
}

// A text with its escapes undone, behind what the string has: what stands between them is copied as it is.
fn undo_onto(out: &mut String, text: &str) -> Result<(), AllocError>
    ensures ok { OnOk result
        (string_bytes out.new ≡ string_bytes out.old ++ encode_utf8_all (undone (chars text.now))) }
    ensures err { OnErr result ((added : List ℕ) × (string_bytes out.new ≡ string_bytes out.old ++ added)) }
{
    let mut rest = text;
    while let Some((plain, escape)) = cut_at(rest, b'\\') {
        out.push_str(plain)?;
        let (meant, behind) = decoded(escape);
        out.push(meant)?;
        rest = behind;
    }
    out.push_str(rest)
}

// What stands behind a backslash: the character that the escape stands for, and the text behind it.
fn decoded(escape: &str) -> (char, &str)
    ensures meant { result.0 ≡ char_of (escape_number (chars escape.now)) }
    ensures behind { chars result.1.now ≡ drop (escape_length (chars escape.now)) (chars escape.now) }
{
    match first_char(escape) {
        Some(('u', digits)) => numbered(digits, 4),
        Some(('U', digits)) => numbered(digits, 8),
        Some((letter, behind)) => (escaped_char(letter), behind),
        None => ('\\', escape),
    }
}

// The character whose number so many digits write, and the text behind them.
fn numbered(text: &str, count: usize) -> (char, &str)
    requires { count ≤ 8 }
    ensures meant { result.0 ≡ char_of (number_of (take count (chars text.now))) }
    ensures behind { chars result.1.now ≡ drop count (chars text.now) }
{
    let mut number = 0;
    let mut rest = text;
    for at in 0..count {
        if let Some((digit, behind)) = first_char(rest) {
            number = 16 * number + digit_number(digit);
            rest = behind;
        }
    }
    (char_of(number), rest)
}

fn digit_number(c: char) -> u32
    ensures { result ≡ digit_number c }
{
    match c {
        '0'..='9' => c as u32 - 48,
        'a'..='f' => c as u32 - 87,
        'A'..='F' => c as u32 - 55,
        _ => 0,
    }
}

fn char_of(number: u32) -> char
    ensures { result ≡ char_of number }
{
    match char::from_u32(number) {
        Some(c) => c,
        None => '\u{FFFD}',
    }
}

fn escaped_char(c: char) -> char
    ensures { result ≡ escaped_char c }
{
    match c {
        't' => '\t',
        'b' => '\u{8}',
        'n' => '\n',
        'r' => '\r',
        'f' => '\u{C}',
        _ => c,
    }
}
