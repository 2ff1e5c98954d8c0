//! The results of pairs, in the order of a report: shape by shape, and of each shape by the terms of the
//! nodes. Changes are staged, and made at once.
//!
//! | file | what it holds |
//! |---|---|
//! | `pair_results.rt` | `PairResults`: the results of each shape at each node; what is staged |
//! | `staging.rt` | how changes are staged, made and dropped |
//! | `nodes.rt` | the nodes of one shape, each at a place of its own |
//! | `rows.rt` | `Rows`: going over the results of some shapes |
//! | `laws.rt` | in which order the results of a shape stand |
//!
//! It stands on `comp_core` for results and on `shx_term` for terms. Start with `pair_results.rt`;
//! `specs/PairResults.antt` says what is kept of a shape at a node, and what will be.
#![tactic(auto)]

mod laws;
mod nodes;
mod pair_results;
mod rows;
mod staging;

pub use laws::results_stand_in_term_order;
pub use pair_results::PairResults;
pub use rows::Rows;
