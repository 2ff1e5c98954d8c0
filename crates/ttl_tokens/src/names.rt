ghost use Rattle.std.specs.Prelude.{◌≡◌, true, MatchOption};
ghost use Rattle.std.specs.Str.{chars};
ghost use Rattle.ttl_tokens.specs.Chars.{Longest, PastChar, is_name_start};
ghost use Rattle.ttl_tokens.specs.Form.{Item};
ghost use Rattle.ttl_tokens.specs.inner.Groups.{IsNoTokenOf, IsTokenOf};
ghost use Rattle.ttl_tokens.specs.Terminals.{pn_prefix, pname_ns};
ghost use Rattle.ttl_tokens.specs.Walks.{Never, Only};
ghost use Rattle.ttl_tokens.specs.declared.group.Group.TheVariants.{Name};

use crate::classes::is_name_start;
use crate::local_names::local_name;
use crate::name_walks::skip_name_tail;
use crate::token::TokenKind;
use crate::walk::{first_char, past_char};
use crate::words::word;

/// The terminal of names and words at the front of a text, and the text behind it. It may be known that no
/// prefixed name stands there.
pub(crate) fn name_after(text: &str, is_known: bool) -> Option<(TokenKind, &str)>
    requires { is_known ≡ true → Never PastChar pname_ns (chars text.now) }
    ensures { MatchOption result (IsNoTokenOf Name (chars text.now))
        (λ t. IsTokenOf Name (chars text.now) t.0 (chars t.1.now)) }
{
    if is_known { word(text) } else { name(text) }
}

// The prefixed name or, where none stands there, the word at the front of a text, and the text behind it.
fn name(text: &str) -> Option<(TokenKind, &str)>
    ensures { MatchOption result (IsNoTokenOf Name (chars text.now))
        (λ t. IsTokenOf Name (chars text.now) t.0 (chars t.1.now)) }
{
    match namespace(text) {
        Some(behind) => match local_name(behind) {
            Some(rest) => Some((TokenKind::PnameLn, rest)),
            None => Some((TokenKind::PnameNs, behind)),
        },
        None => word(text),
    }
}

// Past a prefix and its colon.
fn namespace(text: &str) -> Option<&str>
    ensures { MatchOption result (Never PastChar pname_ns (chars text.now))
        (λ rest. Only PastChar pname_ns (chars text.now) (chars rest.now)) }
{
    match prefix(text) {
        Some(rest) => past_char(rest, ':'),
        None => past_char(text, ':'),
    }
}

/// Past the longest prefix that is not empty.
pub(crate) fn prefix(text: &str) -> Option<&str>
    ensures { MatchOption result (Never PastChar pn_prefix (chars text.now))
        (λ rest. Longest pn_prefix (chars text.now) (chars rest.now)) }
{
    match name_start(text) {
        Some(behind) => Some(skip_name_tail(behind)),
        None => None,
    }
}

fn name_start(text: &str) -> Option<&str>
    ensures { MatchOption result (Never PastChar (Item is_name_start) (chars text.now))
        (λ rest. Only PastChar (Item is_name_start) (chars text.now) (chars rest.now)) }
{
    let (first, rest) = first_char(text)?;
    if is_name_start(first) {
        Some(rest)
    } else {
        None
    }
}
