ghost use Rattle.std.specs.Prelude.{◌≤◌, ℕ, List, drop, length};
ghost use Rattle.std.specs.Str.{chars, IsCharBoundary};
ghost use Rattle.ttl_tokens.specs.Chars.{PastChar};
ghost use Rattle.ttl_tokens.specs.inner.Lookahead.{KnowsAhead};
ghost use Rattle.ttl_tokens.specs.Terminals.{pname_ns};
ghost use Rattle.ttl_tokens.specs.Walks.{Never};

use crate::names::prefix;

/// What is known from looking ahead in a text: from one byte up to another, no prefixed name begins.
#[derive(Clone, Copy, Debug)]
pub struct Lookahead {
    pub(crate) from: usize,
    pub(crate) until: usize,
}

impl Lookahead {
    /// Nothing is known yet, of any text.
    pub fn new() -> Lookahead
        ensures { (text : List ℕ) → KnowsAhead text result }
    {
        Lookahead { from: 0, until: 0 }
    }
}

/// What is known where no prefixed name begins at `start`: none begins up to the end of the longest prefix,
/// which no colon follows.
pub(crate) fn behind_start(text: &str, start: usize) -> Lookahead
    requires within { start ≤ length text.now }
    requires boundary { IsCharBoundary text.now start }
    requires none { Never PastChar pname_ns (chars (drop start text.now)) }
    ensures { KnowsAhead text.now result }
{
    match prefix(&text[start..]) {
        Some(end) => Lookahead {
            from: start + 1,
            until: text.len() - end.len(),
        },
        None => Lookahead::new(),
    }
}
