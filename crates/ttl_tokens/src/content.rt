ghost use Rattle.std.specs.Prelude.{◌≡◌};
ghost use Rattle.std.specs.Str.{chars};
ghost use Rattle.ttl_tokens.specs.inner.Marks.{HasMarks};
ghost use Rattle.ttl_tokens.specs.Unescaped.{behind_colon, content, mark_length, without_ends};

use crate::cut::cut_at;
use crate::token::TokenKind;

/// The part of a token's text that stands for something: of an IRI reference and a string what stands between
/// the marks, of a `PNAME_LN` the local name, else all of it.
pub(crate) fn content(piece: &str, kind: TokenKind) -> &str
    requires { HasMarks (mark_length kind) (chars piece.now) }
    ensures { chars result.now ≡ content kind (chars piece.now) }
{
    if kind == TokenKind::PnameLn {
        local_name(piece)
    } else {
        inner(piece, mark_length(kind))
    }
}

// How many characters the mark at each end has.
fn mark_length(kind: TokenKind) -> usize
    ensures { result ≡ mark_length kind }
{
    match kind {
        TokenKind::IriRef | TokenKind::StringQuote | TokenKind::StringSingleQuote => 1,
        TokenKind::StringLongQuote | TokenKind::StringLongSingleQuote => 3,
        _ => 0,
    }
}

// The text between the marks.
fn inner(piece: &str, marks: usize) -> &str
    requires { HasMarks marks (chars piece.now) }
    ensures { chars result.now ≡ without_ends marks (chars piece.now) }
{
    &piece[marks..piece.len() - marks]
}

// The text behind the first colon.
fn local_name(piece: &str) -> &str
    ensures { chars result.now ≡ behind_colon (chars piece.now) }
{
    match cut_at(piece, b':') {
        Some((_, local)) => local,
        None => "",
    }
}
