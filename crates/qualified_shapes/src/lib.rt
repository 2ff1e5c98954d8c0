//! The components of SHACL Core that count value nodes at a shape beside its siblings, and the one that
//! closes a shape (SHACL, sections 4.7.3 and 4.8.1).
//!
//! | file | what it holds |
//! |---|---|
//! | `qualified_min_count.rt`, `qualified_max_count.rt` | `QualifiedMinCount`, `QualifiedMaxCount` |
//! | `qualified.rt` | value nodes that conform to a shape and to none of its siblings |
//! | `closed.rt` | `Closed` |
//! | `triples.rt` | the triples of value nodes, but for predicates that are allowed |
//!
//! It stands on `comp_core` for what a component is, and on `value_space` for counts. Start with
//! `qualified.rt` and `closed.rt`; `specs/` has a file for each component, which says its results.
#![tactic(auto)]

mod closed;
mod qualified;
mod qualified_max_count;
mod qualified_min_count;
mod triples;

pub use closed::Closed;
pub use qualified_max_count::QualifiedMaxCount;
pub use qualified_min_count::QualifiedMinCount;
