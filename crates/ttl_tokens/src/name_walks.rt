ghost use Rattle.std.specs.Prelude.{MatchOption};
ghost use Rattle.std.specs.Str.{chars};
ghost use Rattle.ttl_tokens.specs.Chars.{Longest, PastChar, is_name_char, exactly};
ghost use Rattle.ttl_tokens.specs.Form.{Item, Or};
ghost use Rattle.ttl_tokens.specs.inner.NameForms.{Steps, name_tail};
ghost use Rattle.ttl_tokens.specs.Walks.{Never, Only};

use crate::classes::is_name_char;
use crate::walk::first_char;

/// Past the longest run of characters of names and dots that does not end in a dot.
pub(crate) fn skip_name_tail(text: &str) -> &str
    ensures { Longest name_tail (chars text.now) (chars result.now) }
{
    let mut rest = text;
    let mut end = text;
    while let Some((behind, last)) = name_step(rest) {
        rest = behind;
        if last {
            end = behind;
        }
    }
    end
}

// Past a character of a name, or past a dot, and whether it is the first of these.
fn name_step(text: &str) -> Option<(&str, bool)>
    ensures { MatchOption result (Never PastChar (Or (Item is_name_char) (exactly 46)) (chars text.now))
        (λ r. Steps (Item is_name_char) (exactly 46) r.1 (chars text.now) (chars r.0.now)) }
{
    let (first, rest) = first_char(text)?;
    if is_name_char(first) {
        Some((rest, true))
    } else if first == '.' {
        Some((rest, false))
    } else {
        None
    }
}
