ghost use Rattle.std.specs.Prelude.{MatchOption};
ghost use Rattle.std.specs.Str.{chars};
ghost use Rattle.ttl_tokens.specs.declared.group.Group.TheVariants.{Caret};
ghost use Rattle.ttl_tokens.specs.inner.Groups.{IsTokenOf, IsNoTokenOf};

use crate::token::TokenKind;
use crate::walk::past_char;

/// `^^`
pub(crate) fn carets(text: &str) -> Option<(TokenKind, &str)>
    ensures { MatchOption result (IsNoTokenOf Caret (chars text.now))
        (λ t. IsTokenOf Caret (chars text.now) t.0 (chars t.1.now)) }
{
    let second = past_char(text, '^')?;
    let rest = past_char(second, '^')?;
    Some((TokenKind::Carets, rest))
}
