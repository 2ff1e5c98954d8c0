//! What tests over views of graphs share: a view that gives nothing at a key that is not due, and whether a
//! view may be asked.
//!
//! | file | what it holds |
//! |---|---|
//! | `view.rt` | `DueView`: the view, and whether all that is due was read |
//! | `valid.rt` | whether a graph is valid, and numbers have terms |
//!
//! It stands on `graph_view` and `shx_term`, and on `value_space` for which literals are wide.
#![tactic(auto)]

mod valid;
mod view;

pub use valid::{are_known, is_known, is_known_triple, is_valid};
pub use view::DueView;
