ghost use Rattle.std.specs.Prelude.{◌≡◌, ◌≤◌, length, Ok};
ghost use Rattle.std.specs.Str.{IsCharBoundary};
ghost use Rattle.ttl_read.specs.Grammar.{begins_verb, is_kind};
ghost use Rattle.ttl_read.specs.inner.Reads.{Stands, next_if, start_of_next};

use crate::groups::begins_verb;
use std::alloc::AllocError;
use ttl_meaning::ReaderState;
use ttl_tokens::{Lookahead, NoToken, Token, TokenKind, next_token_after};

/// Why nothing was read.
#[derive(Clone, Copy, Debug, PartialEq, Eq)]
pub enum Refused {
    /// The grammar has nothing that goes on so.
    Syntax,
    Memory,
}

/// A place in a text, and the token that comes next; or where something stands that begins none.
#[derive(Clone, Copy, Debug)]
pub struct Tokens {
    pub(crate) place: usize,
    pub(crate) ahead: Lookahead,
    pub(crate) next: Result<Token, NoToken>,
}

/// A place in a text, and what was read before it.
#[derive(Drop)]
pub struct Reader {
    pub(crate) tokens: Tokens,
    pub(crate) reading: ReaderState,
}

impl Tokens {
    // The next token from this byte on.
    pub(crate) fn at(text: &str, place: usize) -> Tokens
        requires within { place ≤ length text.now }
        requires boundary { IsCharBoundary text.now place }
        ensures stands { Stands text.now result }
        ensures place { result.place ≡ place }
    {
        let mut ahead = Lookahead::new();
        let next = next_token_after(text, place, &mut ahead);
        Tokens { place, ahead, next }
    }

    // Past the next token.
    pub(crate) fn pass(&mut self, text: &str, token: Token)
        requires stands { Stands text.now self.old }
        requires next { self.old.next ≡ Ok token }
        ensures stands { Stands text.now self.new }
        ensures place { self.new.place ≡ token.end }
    {
        self.place = token.end;
        self.next = next_token_after(text, token.end, &mut self.ahead);
    }
}

impl Tokens {
    // Where the next token begins, or what is none.
    pub(crate) fn start(&self) -> usize
        ensures { result ≡ start_of_next self.now.next }
    {
        match self.next {
            Ok(token) => token.start,
            Err(none) => none.at,
        }
    }

    // The next token, where it is of this kind.
    pub(crate) fn next_of(&self, kind: TokenKind) -> Option<Token>
        ensures { result ≡ next_if (is_kind kind) self.now.next }
    {
        match self.next {
            Ok(token) if token.kind == kind => Some(token),
            _ => None,
        }
    }

    // The next token, where it begins a verb.
    pub(crate) fn next_verb(&self) -> Option<Token>
        ensures { result ≡ next_if begins_verb self.now.next }
    {
        match self.next {
            Ok(token) if begins_verb(token.kind) => Some(token),
            _ => None,
        }
    }
}

impl From<AllocError> for Refused {
    ghost use Rattle.std.specs.Prelude.{◌≡◌};
    ghost use Rattle.ttl_read.specs.declared.reader.Refused.{Refused};

    ghost from_gives = { λ _ refused. refused ≡ Refused.Memory };

    fn from(_: AllocError) -> Self {
        Refused::Memory
    }
}
