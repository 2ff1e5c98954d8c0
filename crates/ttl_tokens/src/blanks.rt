ghost use Rattle.std.specs.Str.{chars};
ghost use Rattle.ttl_tokens.specs.Blanks.{SkipsBlanks};

use crate::classes::{is_line_end, is_white};
use crate::walk::first_char;

/// The text behind white space and comments.
pub(crate) fn skip_blanks(text: &str) -> &str
    ensures { SkipsBlanks (chars text.now) (chars result.now) }
{
    let mut rest = text;
    let mut in_comment = false;
    while let Some((first, behind)) = first_char(rest) {
        if in_comment {
            in_comment = !is_line_end(first);
        } else if first == '#' {
            in_comment = true;
        } else if !is_white(first) {
            return rest;
        }
        rest = behind;
    }
    rest
}
