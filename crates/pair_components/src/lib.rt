//! The components of SHACL Core that hold value nodes to the objects of another predicate (SHACL, section
//! 4.5).
//!
//! | file | what it holds |
//! |---|---|
//! | `equals.rt`, `disjoint.rt` | `Equals`, `Disjoint` |
//! | `less_than.rt`, `less_than_or_equals.rt` | `LessThan`, `LessThanOrEquals` |
//! | `members.rt` | nodes that are among others, or are not |
//! | `orders.rt` | value nodes that are less than others |
//!
//! It stands on `comp_core` for what a component is, and on `value_space` for the order of values. Start with
//! `equals.rt` and `less_than.rt`; `specs/` has a file for each component, which says its results.
#![tactic(auto)]

mod disjoint;
mod equals;
mod less_than;
mod less_than_or_equals;
mod members;
mod orders;

pub use disjoint::Disjoint;
pub use equals::Equals;
pub use less_than::LessThan;
pub use less_than_or_equals::LessThanOrEquals;
