//! The components of SHACL Core that hold value nodes to other shapes, wholly or by logic (SHACL, sections
//! 4.6, 4.7.1 and 4.7.2).
//!
//! | file | what it holds |
//! |---|---|
//! | `negation.rt` | `Not`: sh:not |
//! | `conjunction.rt`, `disjunction.rt`, `exactly_one.rt` | `And`, `Or`, `Xone` |
//! | `node.rt`, `property.rt` | `Node`, `Property` |
//! | `demand.rt` | to how many shapes a value node has to conform, and the one loop over value nodes |
//!
//! It stands on `comp_core`. Start with `negation.rt` and `exactly_one.rt`; `specs/` has a file for each
//! component, which says its results. What is found of a node at another shape is told by a `Conform`.
#![tactic(auto)]

mod conjunction;
mod demand;
mod disjunction;
mod exactly_one;
mod negation;
mod node;
mod property;

pub use conjunction::And;
pub use disjunction::Or;
pub use exactly_one::Xone;
pub use negation::Not;
pub use node::Node;
pub use property::Property;
