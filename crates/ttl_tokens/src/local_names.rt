ghost use Rattle.std.specs.Prelude.{MatchOption};
ghost use Rattle.std.specs.Str.{chars};
ghost use Rattle.ttl_tokens.specs.Chars.{Longest, PastChar, exactly};
ghost use Rattle.ttl_tokens.specs.Form.{Item, Or, Then};
ghost use Rattle.ttl_tokens.specs.inner.NameForms.{Steps, local_char, local_start, local_tail};
ghost use Rattle.ttl_tokens.specs.Terminals.{hex, is_local_escaped, plx, pn_local};
ghost use Rattle.ttl_tokens.specs.Walks.{Never, Only};

use crate::classes::{is_local_char, is_local_escaped, is_local_start};
use crate::escapes::hex_2;
use crate::walk::{first_char, past_char};

/// Past the longest local name.
pub(crate) fn local_name(text: &str) -> Option<&str>
    ensures { MatchOption result (Never PastChar pn_local (chars text.now))
        (λ rest. Longest pn_local (chars text.now) (chars rest.now)) }
{
    match local_start(text) {
        Some(behind) => Some(skip_local_tail(behind)),
        None => None,
    }
}

fn local_start(text: &str) -> Option<&str>
    ensures { MatchOption result (Never PastChar local_start (chars text.now))
        (λ rest. Only PastChar local_start (chars text.now) (chars rest.now)) }
{
    let (first, rest) = first_char(text)?;
    if is_local_start(first) {
        Some(rest)
    } else {
        escape(text)
    }
}

// Past the longest run of characters of local names, escapes and dots that does not end in a dot.
fn skip_local_tail(text: &str) -> &str
    ensures { Longest local_tail (chars text.now) (chars result.now) }
{
    let mut rest = text;
    let mut end = text;
    while let Some((behind, last)) = local_step(rest) {
        rest = behind;
        if last {
            end = behind;
        }
    }
    end
}

// Past a character of a local name or an escape, or past a dot, and whether it is none.
fn local_step(text: &str) -> Option<(&str, bool)>
    ensures { MatchOption result (Never PastChar (Or local_char (exactly 46)) (chars text.now))
        (λ r. Steps local_char (exactly 46) r.1 (chars text.now) (chars r.0.now)) }
{
    match local_char(text) {
        Some(rest) => Some((rest, true)),
        None => match past_char(text, '.') {
            Some(rest) => Some((rest, false)),
            None => None,
        },
    }
}

fn local_char(text: &str) -> Option<&str>
    ensures { MatchOption result (Never PastChar local_char (chars text.now))
        (λ rest. Only PastChar local_char (chars text.now) (chars rest.now)) }
{
    let (first, rest) = first_char(text)?;
    if is_local_char(first) {
        Some(rest)
    } else {
        escape(text)
    }
}

// Past an escape of a local name.
fn escape(text: &str) -> Option<&str>
    ensures { MatchOption result (Never PastChar plx (chars text.now))
        (λ rest. Only PastChar plx (chars text.now) (chars rest.now)) }
{
    let (first, rest) = first_char(text)?;
    match first {
        '%' => hex_2(rest),
        '\\' => local_escaped(rest),
        _ => None,
    }
}

fn local_escaped(text: &str) -> Option<&str>
    ensures { MatchOption result (Never PastChar (Item is_local_escaped) (chars text.now))
        (λ rest. Only PastChar (Item is_local_escaped) (chars text.now) (chars rest.now)) }
{
    let (first, rest) = first_char(text)?;
    if is_local_escaped(first) {
        Some(rest)
    } else {
        None
    }
}
