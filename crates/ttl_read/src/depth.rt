//! The bracket of a statement that opens one too many. It is looked for where a statement was found to have
//! no derivation within the limit, to tell whether that is why.
ghost use Rattle.std.specs.Prelude.{◌≡◌, ◌≤◌, ◌<◌, true, length, MatchOption};
ghost use Rattle.std.specs.Str.{IsCharBoundary};
ghost use Rattle.ttl_read.specs.Depth.{IsTooDeep, IsNotTooDeep, is_dot_or_end, is_open, open_behind};
ghost use Rattle.ttl_read.specs.Depth.{IsOneTooMany, NoneTooMany};
ghost use Rattle.ttl_read.specs.inner.Reads.{Stands};

use crate::groups::{is_close, is_dot_or_end, is_open, is_prefix_or_base};
use crate::reader::Tokens;
use ttl_tokens::{Lookahead, TokenKind, next_token_after};

/// The first bracket that opens one too many in the statement that begins here.
pub(crate) fn too_deep(text: &str, tokens: &Tokens, limit: u32) -> Option<usize>
    requires stands { Stands text.now tokens.now }
    ensures { MatchOption result (IsNotTooDeep text.now limit tokens.now.place)
        (IsTooDeep text.now limit tokens.now.place) }
{
    match tokens.next {
        Ok(first) => {
            if is_prefix_or_base(first.kind) {
                None
            } else {
                one_too_many(text, tokens.place, limit)
            }
        }
        Err(_) => None,
    }
}

// The same, whatever the statement begins with.
fn one_too_many(text: &str, at: usize, limit: u32) -> Option<usize>
    requires within { at ≤ length text.now }
    requires boundary { IsCharBoundary text.now at }
    ensures { MatchOption result (NoneTooMany text.now limit at 0) (IsOneTooMany text.now limit at 0) }
{
    let mut ahead = Lookahead::new();
    let mut place = at;
    let mut count: u32 = 0;
    while let Ok(token) = next_token_after(text, place, &mut ahead) {
        if is_dot_or_end(token.kind) {
            return None;
        }
        if is_open(token.kind) && count >= limit {
            return Some(token.start);
        }
        count = count_behind(token.kind, count, limit);
        place = token.end;
    }
    None
}

// How many brackets are open behind a token.
fn count_behind(kind: TokenKind, count: u32, limit: u32) -> u32
    requires within { count ≤ limit }
    requires room { is_open kind ≡ true → count < limit }
    ensures counted { result ≡ open_behind kind count }
    ensures within { result ≤ limit }
{
    if is_open(kind) {
        count + 1
    } else if is_close(kind) {
        count.saturating_sub(1)
    } else {
        count
    }
}
