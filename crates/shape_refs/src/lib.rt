//! What the shapes of a shapes graph refer to (SHACL, sections 3.4.3 and 4.7.3), and an order in which each
//! stands behind that.
//!
//! | file | what it holds |
//! |---|---|
//! | `ordering.rt` | `order_shapes`: the order of declared shapes, or what stands in its way |
//! | `numbered.rt`, `fault.rt` | `ShapeOrder`, `ReferenceFault`: what it answers |
//! | `declared.rt` | `Declared`: declarations, found by their nodes |
//! | `naming.rt` | the shapes that a shape names by its parameters |
//! | `siblings.rt` | the siblings of each shape |
//! | `references.rt` | all that each shape refers to, by places |
//! | `truth.rt` | which values of parameters say that something is so |
//!
//! It stands on `shape_decl` for declarations, on `shape_order` for the order of numbers, on `value_space`
//! for booleans, and on `indexmap`. Start with `ordering.rt`; `specs/References.antt` says what a shape
//! refers to, `specs/Order.antt` what an order is, and `specs/Outcome.antt` what stands in its way.
#![tactic(auto)]

mod declared;
mod fault;
mod naming;
mod numbered;
mod ordering;
mod references;
mod siblings;
mod truth;

pub use declared::Declared;
pub use fault::ReferenceFault;
pub use naming::add_members;
pub use numbered::ShapeOrder;
pub use ordering::order_shapes;
pub use truth::{is_any_true, is_true};
