//! Turtle documents (Turtle 1.1): what a text states, or the one fault that it has; and one term behind a
//! document.
//!
//! | file | what it holds |
//! |---|---|
//! | `document.rt` | `read_document`, and what it gives |
//! | `term.rt` | `read_term`: the term that begins at a token, behind a document |
//! | `ends.rt` | `term_end`: where such a term ends, by the tokens alone |
//! | `suffix.rt` | what belongs to a string |
//! | `fault.rt` | `TtlFault`: why a text is no document, or a token no term |
//! | `statements.rt` | the statements of a text in turn, their faults, and the pool behind them |
//! | `depth.rt` | where a statement has no derivation, whether a bracket is one too many |
//! | `statement.rt`, `directive.rt` | one statement |
//! | `triples.rt`, `object.rt`, `collection.rt` | its parts, one function a production |
//! | `literal.rt`, `node.rt` | its terms, likewise |
//! | `groups.rt` | groups of tokens |
//! | `reader.rt` | `Reader`: the next token, and what was read before it |
//! | `laws.rt` | what is known of a term that is found, and which statements are derived within a limit |
//!
//! It stands on `ttl_tokens` for the tokens and on `ttl_meaning` for what they mean. Start with
//! `document.rt`; `specs/Documents.antt` says what a document is, `specs/Grammar.antt` what a statement,
//! and `specs/ReadTerm.antt` what is found at a token.
#![tactic(auto)]

mod collection;
mod depth;
mod directive;
mod document;
mod ends;
mod fault;
mod groups;
mod laws;
mod literal;
mod node;
mod object;
mod reader;
mod statement;
mod statements;
mod suffix;
mod term;
mod triples;

pub use document::read_document;
pub use ends::term_end;
pub use fault::TtlFault;
pub use groups::{begins_verb, is_iri, is_string};
pub use laws::{
    a_derived_statement_is_shallow, a_found_term_goes_to_its_end, a_shallow_statement_is_derived,
    a_term_goes_to_one_end, found_terms_suit_their_tokens, one_term_is_found,
};
pub use term::{Reading, read_term};
pub use ttl_meaning::{Document, Prefix};
