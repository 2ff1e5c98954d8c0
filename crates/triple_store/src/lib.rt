//! The indexed store: a graph of numbered triples in which a look-up costs what it finds.
//!
//! | file | what it holds |
//! |---|---|
//! | `arrangement.rt` | `Arrangement`: which number of a triple an index compares first; `Entry` |
//! | `index.rt` | `Index`: a set of triples in one arrangement, and what stands under a first number or two |
//! | `dealing.rt` | `deal`: triples by one of their numbers, by counting |
//! | `dealer.rt` | `Dealer`: triples that are dealt by one number after another |
//! | `indexes.rt` | `Indexes`: three of them, with the same triples, made of a list that is dealt or sorted |
//! | `changes.rt` | `Changes`: the triples of a change, in indexes |
//! | `overlay.rt` | `Overlay`: a graph without some triples and with others, of which there may be many |
//! | `store.rt` | `Store`: a pool and the indexes, made of triples at once; both traits of `graph_view` |
//!
//! It stands on `shx_term` and `graph_view`. Start with `store.rt`; what it is to its callers is said by the
//! definitions of `graph_view`. `specs/inner/Arrangement.antt` says how triples are arranged,
//! `specs/inner/Dealing.antt` how they are dealt, and `specs/inner/Index.antt` what an index of some triples
//! is.
#![tactic(auto)]

mod arrangement;
mod changes;
mod dealer;
mod dealing;
mod index;
mod indexes;
mod overlay;
mod store;

pub use overlay::Overlay;
pub use store::Store;
