//! What tables of tests share: rows, their parts, and terms by words.
//!
//! | file | what it holds |
//! |---|---|
//! | `rows.rt` | `all_met`, `all_blocks_met`: going over the rows of a text |
//! | `row.rt` | `cut`, `in_three`, `in_four`, `number`: the parts of a row |
//! | `fault.rt` | `RowFault`: why a row could not be tried |
//! | `terms.rt` | terms and their parts, made of texts, and how a term is written |
//! | `words.rt` | `term`: a term by a word |
//! | `pools.rt` | `vocabulary_pool`: a pool to begin with |
//!
//! It stands on `shx_term`. Start with `rows.rt`.
#![tactic(auto)]

mod fault;
mod pools;
mod row;
mod rows;
mod terms;
mod words;

pub use fault::RowFault;
pub use pools::vocabulary_pool;
pub use row::{cut, in_four, in_three, number};
pub use rows::{all_blocks_met, all_met};
pub use terms::{anonymous, iri, iri_text, label, labelled, literal, spelled, tagged, text};
pub use words::term;
