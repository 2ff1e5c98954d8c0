ghost use Rattle.std.specs.Prelude.{◌≡◌, ◌≤◌, true, IfOk, IfErr, length, MatchOption};
ghost use Rattle.std.specs.Str.{chars, IsCharBoundary};
ghost use Rattle.ttl_tokens.specs.Chars.{PastChar};
ghost use Rattle.ttl_tokens.specs.inner.Lookahead.{KnowsAhead};
ghost use Rattle.ttl_tokens.specs.Terminals.{pname_ns};
ghost use Rattle.ttl_tokens.specs.Tokens.{IsToken, IsNoToken, IsTokenAt, IsNoTokenAt};
ghost use Rattle.ttl_tokens.specs.Walks.{Never};

use crate::blank_label::blank_label;
use crate::blanks::skip_blanks;
use crate::caret::carets;
use crate::group::{Group, group_of};
use crate::iri_ref::iri_ref;
use crate::lang_tag::lang_tag;
use crate::lookahead::{Lookahead, behind_start};
use crate::marks::{mark, square};
use crate::names::name_after;
use crate::numbers::number;
use crate::strings::{double_quoted, single_quoted};
use crate::walk::first_char;
use crate::words::is_word;
use crate::{NoToken, Token, TokenKind};

/// The token at byte `at`, behind white space and comments (Turtle 1.1, section 6): the longest terminal that
/// stands there, or the end of the text. It takes no memory, and time linear in what it passes and in the
/// token; for a word, also in the characters of names behind it, among which a colon would make it a prefix.
/// A loop over the tokens of a text asks `next_token_after`, which does not look there again for each word.
///
/// # Errors
///
/// `NoToken` where something else stands there and no terminal begins with it.
pub fn next_token(text: &str, at: usize) -> Result<Token, NoToken>
    requires within { at ≤ length text.now }
    requires boundary { IsCharBoundary text.now at }
    ensures found { IfOk result (IsTokenAt text.now at) }
    ensures none { IfErr result (λ none. IsNoTokenAt text.now at none.at) }
{
    next_token_after(text, at, &mut Lookahead::new())
}

/// As `next_token`, for a loop over the tokens of one text: the characters that were looked at behind a word
/// are not looked at again for the words among them.
///
/// # Errors
///
/// `NoToken` as from `next_token`.
pub fn next_token_after(text: &str, at: usize, ahead: &mut Lookahead) -> Result<Token, NoToken>
    requires within { at ≤ length text.now }
    requires boundary { IsCharBoundary text.now at }
    requires known { KnowsAhead text.now ahead.old }
    ensures found { IfOk result (IsTokenAt text.now at) }
    ensures none { IfErr result (λ none. IsNoTokenAt text.now at none.at) }
    ensures known { KnowsAhead text.now ahead.new }
{
    let behind = skip_blanks(&text[at..]);
    let start = text.len() - behind.len();
    if behind.is_empty() {
        let kind = TokenKind::End;
        return Ok(Token {
            kind,
            start,
            end: start,
        });
    }
    let is_known = ahead.from <= start && start < ahead.until;
    match terminal(behind, is_known) {
        Some((kind, rest)) => {
            let end = text.len() - rest.len();
            if !is_known && is_word(kind) {
                *ahead = behind_start(text, start);
            }
            Ok(Token { kind, start, end })
        }
        None => Err(NoToken { at: start }),
    }
}

// The terminal with which a text begins, and what stands behind it. It may be known that no prefixed name
// stands there.
fn terminal(text: &str, is_known: bool) -> Option<(TokenKind, &str)>
    requires { is_known ≡ true → Never PastChar pname_ns (chars text.now) }
    ensures { MatchOption result (IsNoToken (chars text.now))
        (λ t. IsToken (chars text.now) t.0 (chars t.1.now)) }
{
    match first_char(text) {
        Some((first, _)) => match group_of(first) {
            Group::Number => number(text),
            Group::Name => name_after(text, is_known),
            Group::DoubleQuoted => double_quoted(text),
            Group::SingleQuoted => single_quoted(text),
            Group::Angle => iri_ref(text),
            Group::At => lang_tag(text),
            Group::Underscore => blank_label(text),
            Group::Caret => carets(text),
            Group::Square => square(text),
            Group::Mark => mark(text),
            Group::Other => None,
        },
        None => None,
    }
}
