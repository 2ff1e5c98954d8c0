//! Plans of shapes at work, as tests alone: the results of shapes at nodes, target nodes, what is read for
//! them, and orders of shapes.
//!
//! | file | what it holds |
//! |---|---|
//! | `tests/rows.rt` | the tables, and how a block is written |
//! | `tests/rows/components.rt` | the components, together and apart |
//! | `tests/rows/shapes.rt` | paths, nested shapes and siblings, and what is not so |
//! | `tests/rows/targets.rt`, `tests/rows/orders.rt` | target nodes; orders of shapes |
//! | `tests/asked.rt` | `is_met`: a block, with its questions |
//! | `tests/stated.rt` | the graph and the plan of a text in Turtle |
//! | `tests/pairs.rt`, `tests/targets.rt` | what is found of a pair; target nodes |
//! | `tests/orders.rt` | orders of shapes by what they refer to, which `shape_order` finds |
//! | `tests/told.rt` | answers that a table tells |
//! | `tests/keys.rt` | keys by words |
//! | `tests/words.rt`, `tests/kinds.rt` | words of terms, and names of components |
//! | `tests/due.rt` | `Due`: a text that is taken piece by piece |
//!
//! It stands on `shape_eval`, and on `ttl_read`, `shape_check` and `shape_compile` for graphs and plans; on
//! `shape_order`, `comp_core` and `graph_view`; on `due_view` for which graphs are valid and for what is
//! read, and on `row_tools`. Start with `tests/asked.rt`.
#![tactic(auto)]

#[cfg(test)]
mod tests;
