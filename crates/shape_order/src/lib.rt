//! The order of shapes: each behind those that it refers to. SHACL does not define validation with shapes
//! that reach themselves (section 3.4.3).
//!
//! | file | what it holds |
//! |---|---|
//! | `ordering.rt` | `order`: shapes in order, with places and levels, or what stands in the way |
//! | `references.rt` | `are_shapes`; the shapes that a shape refers to, one by one |
//! | `listed.rt` | `Listed`: shapes in a row, each once |
//! | `visits.rt` | `Visit`: the way of a search |
//! | `numbering.rt` | the search that puts shapes in order |
//! | `places.rt` | the place of each shape in an order |
//! | `levels.rt` | how far each shape stands above those that refer to none |
//! | `cycles.rt` | the cycle of the least shape that reaches itself |
//! | `hints.rt` | numbers by which that shape is found, which are checked before they are believed |
//! | `laws.rt` | what is true of orders and of levels |
//!
//! Shapes are numbers, and what they refer to are lists of them. It stands on `shx_term`: on its name for
//! want of memory, and on its lemmas. Start with `ordering.rt`; `specs/Outcome.antt` says what is found.
#![tactic(auto)]

mod cycles;
mod hints;
mod laws;
mod levels;
mod listed;
mod numbering;
mod ordering;
mod places;
mod references;
mod visits;

pub use laws::{an_order_has_no_cycle, levels_are_the_longest_chains};
pub use ordering::{Numbering, OrderFault, order};
pub use references::are_shapes;
