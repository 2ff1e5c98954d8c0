ghost use Rattle.std.specs.Prelude.{MatchOption, codes};
ghost use Rattle.std.specs.Str.{chars};
ghost use Rattle.ttl_tokens.specs.Chars.{PastChar, word};
ghost use Rattle.ttl_tokens.specs.inner.Groups.{IsNoTokenOf, IsTokenOf};
ghost use Rattle.ttl_tokens.specs.inner.NameForms.{label_start};
ghost use Rattle.ttl_tokens.specs.Walks.{Never, Only};
ghost use Rattle.ttl_tokens.specs.declared.group.Group.TheVariants.{Underscore};

use crate::classes::is_label_start;
use crate::name_walks::skip_name_tail;
use crate::token::TokenKind;
use crate::walk::{first_char, past_char};

/// The label of a blank node at the front of a text, and the text behind it.
pub(crate) fn blank_label(text: &str) -> Option<(TokenKind, &str)>
    ensures { MatchOption result (IsNoTokenOf Underscore (chars text.now))
        (λ t. IsTokenOf Underscore (chars text.now) t.0 (chars t.1.now)) }
{
    let named = underscore_colon(text)?;
    match label_start(named) {
        Some(behind) => Some((TokenKind::BlankLabel, skip_name_tail(behind))),
        None => None,
    }
}

fn underscore_colon(text: &str) -> Option<&str>
    ensures { MatchOption result (Never PastChar (word (codes "_:")) (chars text.now))
        (λ rest. Only PastChar (word (codes "_:")) (chars text.now) (chars rest.now)) }
{
    let behind = past_char(text, '_')?;
    past_char(behind, ':')
}

fn label_start(text: &str) -> Option<&str>
    ensures { MatchOption result (Never PastChar label_start (chars text.now))
        (λ rest. Only PastChar label_start (chars text.now) (chars rest.now)) }
{
    let (first, rest) = first_char(text)?;
    if is_label_start(first) {
        Some(rest)
    } else {
        None
    }
}
