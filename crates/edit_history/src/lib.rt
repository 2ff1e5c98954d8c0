//! The changes of a graph that can be taken back and made again.
//!
//! | file | what it holds |
//! |---|---|
//! | `term_triples.rt` | `TermTriples`: a list of triples of terms |
//! | `net.rt` | `Net`: what a change added and removed |
//! | `history.rt` | `History`: the latest changes, and a place among them |
//!
//! It stands on `shx_term` for triples. Start with `history.rt`; `specs/History.antt` says what becomes of a
//! history.
#![tactic(auto)]

mod history;
mod net;
mod term_triples;

pub use history::History;
pub use net::Net;
pub use term_triples::TermTriples;
