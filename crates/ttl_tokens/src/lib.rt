//! The terminals of Turtle 1.1: the token at a place of a text, and what it stands for.
//!
//! | file | what it holds |
//! |---|---|
//! | `token.rt` | `TokenKind`, `Token`, `NoToken` |
//! | `scan.rt` | `next_token`, `next_token_after`: the longest terminal behind white space and comments |
//! | `lookahead.rt` | `Lookahead`: where no prefixed name begins, for a loop over the tokens |
//! | `meaning.rt`, `content.rt` | `unescape`, `unescape_onto`: a token's text between its marks, unescaped |
//! | `cut.rt` | `cut_at`: a text on both sides of a character of ASCII |
//! | `group.rt` | which terminals may begin with a character |
//! | `blanks.rt`, `marks.rt`, `caret.rt` | white space and comments; marks and ANON; `^^` |
//! | `numbers.rt`, `lang_tag.rt`, `iri_ref.rt`, `strings.rt`, `escapes.rt` | the terminals of these names |
//! | `names.rt`, `local_names.rt`, `words.rt`, `blank_label.rt`, `name_walks.rt` | names, words and labels |
//! | `laws.rt` | that one token stands at a place, and that a token means what its escapes stand for |
//! | `walk.rt`, `classes.rt` | past a character; classes of characters |
//!
//! It stands on std alone. Start with `scan.rt`; `specs/Tokens.antt` says which token stands at a place, and
//! `specs/Unescaped.antt` what it stands for; `specs/Terminals.antt` has the grammar, and `specs/Form.antt`
//! the notation that it is written in.
#![tactic(auto)]

mod blank_label;
mod blanks;
mod caret;
mod classes;
mod content;
mod cut;
mod escapes;
mod group;
mod iri_ref;
mod lang_tag;
mod laws;
mod local_names;
mod lookahead;
mod marks;
mod meaning;
mod name_walks;
mod names;
mod numbers;
mod scan;
mod strings;
mod token;
mod walk;
mod words;

pub use cut::cut_at;
pub use laws::{escapes_are_undone, one_token_stands};
pub use lookahead::Lookahead;
pub use meaning::{unescape, unescape_onto};
pub use scan::{next_token, next_token_after};
pub use token::{NoToken, Token, TokenKind};
