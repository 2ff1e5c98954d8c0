//! What the items of Turtle mean (Turtle 1.1, section 7): the state of a reader, and what each token does to
//! it. Which tokens may follow one another is none of its matters.
//!
//! | file | what it holds |
//! |---|---|
//! | `reader_state.rt` | `ReaderState`: what a reader of a text knows at a place, and what it has read |
//! | `items.rt` | what each item of the grammar does |
//! | `iris.rt` | which IRI a reference or a prefixed name stands for, and what it is used for |
//! | `directives.rt` | what directives do |
//! | `nodes.rt` | where a term belongs: contexts, blank nodes and collections |
//! | `strings.rt` | literals in their place |
//! | `terms.rt` | the terms that are made |
//! | `stated.rt` | the triples so far, within the limits |
//! | `base.rt` | `Base`: the IRI against which references are resolved |
//! | `document.rt`, `tables.rt` | `Document`: what a text states |
//! | `document_terms.rt`, `literals.rt` | what tokens stand for behind a document |
//! | `shapes_nodes.rt`, `node_number.rt` | the blank nodes that a shapes text may have |
//! | `context.rt` | `Context`: what the next term belongs to |
//! | `placed.rt` | `Placed`: a term by itself, or by its number |
//! | `fault.rt` | why a term has no place here, or there is none |
//!
//! It stands on `ttl_tokens` for what tokens say, on `iri_resolve`, `value_space`, `shx_term` and `itoa`.
//! Start with `reader_state.rt`; `specs/State.antt` and `specs/Items.antt` say what is meant.
#![tactic(auto)]

mod base;
mod context;
mod directives;
mod document;
mod document_terms;
mod fault;
mod iris;
mod items;
mod literals;
mod node_number;
mod nodes;
mod placed;
mod reader_state;
mod shapes_nodes;
mod stated;
mod strings;
mod tables;
mod terms;

pub use base::Base;
pub use context::Context;
pub use document::{Document, Prefix};
pub use fault::{NoNode, NoTerm, TermFault, TermFaultKind};
pub use iris::IriRole;
pub use literals::{bare_literal, plain_string, tagged_string, typed_string};
pub use placed::Placed;
pub use reader_state::ReaderState;
pub use shapes_nodes::shapes_node;
pub use stated::{Excess, Stated};
