//! The terms of RDF, their order and spelling, and the pool that numbers them.
//!
//! | file | what it holds |
//! |---|---|
//! | `text.rt`, `iri_text.rt`, `label.rt` | `Text`, `IriText`, `Label`: texts, seen as lists of bytes |
//! | `common_datatype.rt` | the datatypes whose IRIs take no memory |
//! | `term.rt` | `Term` and its parts |
//! | `order.rt` | the order of terms, and their equality and hash |
//! | `pieces.rt` | `Pieces`: what takes a text in pieces |
//! | `spelling.rt` | `spell`, `write_term`: how a term is written |
//! | `scheme.rt` | `is_scheme`: what an absolute IRI begins with |
//! | `triple.rt` | `Id`, `Triple` over numbers, `TermTriple` over terms |
//! | `edit.rt` | `Edit`: what is asked of a graph |
//! | `term_keys.rt` | `TermKeys`: the keyed hash of a pool's terms |
//! | `pool.rt` | `Pool`: distinct terms by number |
//! | `vocabulary.rt` | the 62 terms that every pool begins with, and a constant for each number |
//! | `limits.rt` | `Limits` |
//! | `fault_codes.rt` | the codes of faults, with their names: one table |
//! | `steps.rt` | `Steps`: a counter that takes no memory and no time |
//! | `memory.rt` | `Memory`: want of memory |
//!
//! It stands on `indexmap` and `itoa`. Start with `term.rt` and `pool.rt`; `specs/TermOrder.antt` has the
//! order and `specs/Pool.antt` the words of a pool's contracts.
#![tactic(auto)]

mod common_datatype;
mod edit;
pub mod fault_codes;
mod iri_text;
mod label;
mod limits;
mod memory;
mod order;
mod pieces;
mod pool;
mod scheme;
mod spelling;
mod steps;
mod term;
mod term_keys;
mod text;
mod triple;
pub mod vocabulary;

pub use edit::Edit;
pub use iri_text::IriText;
pub use label::Label;
pub use limits::Limits;
pub use memory::Memory;
pub use order::{cmp_terms, equal_terms_are_one};
pub use pieces::Pieces;
pub use pool::{Pool, PoolFault, term_order_lists};
pub use scheme::is_scheme;
pub use spelling::{XSD_STRING, spell, write_term};
pub use steps::Steps;
pub use term::{BlankName, Literal, LocalName, Scope, Term};
pub use term_keys::TermKeys;
pub use text::Text;
pub use triple::{Id, TermTriple, Triple};
