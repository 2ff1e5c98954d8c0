//! Graphs of numbered terms: what can be looked up in one, what a look-up leaves behind, and how graphs
//! change.
//!
//! | file | what it holds |
//! |---|---|
//! | `key.rt` | `Key`: a part of a graph, or an answer, that was read, with an order; `touches`, `keys_of` |
//! | `reads.rt` | `Reads`: a set of keys, and whether a triple touches one of them |
//! | `notes.rt` | `Notes`: what takes the keys that are read, as `Reads`, or keeps nothing of them |
//! | `keys.rt` | the two forms of such a set, for a few keys and for many |
//! | `view.rt` | `GraphView`: look-ups, each of which adds its key to the reads; what they tell; `term_of` |
//! | `edit.rt` | `GraphEdit`: a graph that takes terms and triples, and gives them up; what edits spare |
//! | `list_graph.rt` | `ListGraph`: the plain form, whose look-ups go over all triples |
//! | `lent.rt` | `Lent`: a pool and a slice of triples as such a graph |
//! | `triple_set.rt` | a set of triples that takes several, and gives up several |
//! | `patched.rt` | `Patched`: a graph without some triples and with others; what such a change spares |
//! | `changed.rt` | what a change leaves of an answer, in the order of terms |
//! | `among.rt` | what of some triples touches a key |
//! | `laws.rt` | edits as changes of several triples, what keeps a view valid, what agreement keeps |
//!
//! It stands on `shx_term` and `indexmap`. Start with `view.rt`; `specs/Graph.antt` says what a graph and a
//! look-up are, `specs/Key.antt` when a triple touches a key, `specs/Agree.antt` when two graphs look the
//! same to a reader of some keys, `specs/SameGraph.antt` when no look-up tells two graphs apart,
//! `specs/Patched.antt` which changes are possible and what they make of a graph, and `specs/Valid.antt`
//! which views are valid.
#![tactic(auto)]

mod among;
mod changed;
mod edit;
mod key;
mod keys;
mod laws;
mod lent;
mod list_graph;
mod notes;
mod patched;
mod reads;
mod triple_set;
mod view;

pub use among::{objects_among, subjects_among, triples_among};
pub use changed::{Found, merged};
pub use edit::{GraphEdit, StoreFault, edits_agree};
pub use key::{Key, keys_of, touches};
pub use laws::{agreement_keeps, edits_are_patches, valid_views_stay};
pub use lent::Lent;
pub use list_graph::ListGraph;
pub use notes::{Notes, Unnoted};
pub use patched::{Patched, patches_agree};
pub use reads::Reads;
pub use view::{GraphView, look_ups_agree, look_ups_give_what_is_held, term_of};
