//! Shapes that are changed while the data stays: which shapes of a new plan are declared as in the old one.
//!
//! | file | what it holds |
//! |---|---|
//! | `comparing.rt` | `alike`: for each shape of a new plan the old one that is alike |
//! | `alikes.rt` | `Alikes`: what that answers |
//! | `same_shape.rt` | whether two shapes are declared the same, but for the shapes that they name |
//! | `stated.rt` | what a constraint says beside its component and its parameter |
//! | `swap.rt` | `Swap`: pairs and what was found of them, under the numbers of another plan |
//! | `laws.rt` | laws: alike shapes find the same at each node, but for their numbers |
//!
//! It stands on `shape_eval` for plans and what they find. Start with `comparing.rt`; `specs/Alike.antt` says
//! which shapes are alike, `specs/Renumbered.antt` what they find, and `specs/Swap.antt` which pairs stay.
#![tactic(auto)]

mod alikes;
mod comparing;
mod laws;
mod same_shape;
mod stated;
mod swap;

pub use alikes::Alikes;
pub use comparing::alike;
pub use laws::{alike_shapes_find_alike, alike_shapes_nest_alike};
pub use swap::Swap;
