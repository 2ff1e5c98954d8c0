//! Why a node fails, or not: the triples that the results of a shape at a node rest on.
//!
//! | file | what it holds |
//! |---|---|
//! | `slice.rt` | `Slice`, `slice_of`: the triples of a graph that touch some keys |
//! | `laws.rt` | a law: the triples that touch what was read for a pair give the same results by themselves |
//!
//! It stands on `graph_view` for look-ups and on `shape_eval` for what is read. Start with `slice.rt`;
//! `specs/Slice.antt` says which triples a slice has.
#![tactic(auto)]

mod laws;
mod slice;

pub use laws::slices_suffice;
pub use slice::{Slice, slice_of};
