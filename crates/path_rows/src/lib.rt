//! Property paths at work, as tests alone: what a path leads to, and what is read for it.
//!
//! | file | what it holds |
//! |---|---|
//! | `tests/rows.rt` | the table: questions, most of them of graphs |
//! | `tests/questions.rt` | classes, instances, and where paths lead; equal paths |
//! | `tests/superclasses.rt` | instances by what is known of other classes, and what is looked up for them |
//! | `tests/cells.rt` | nodes, keys and graphs as rows say them |
//! | `tests/paths.rt` | a path as the table writes it |
//!
//! It stands on `path_eval`, `graph_view` and `shx_term`, on `due_view` for what is read, and on `row_tools`.
//! Start with `tests/rows.rt`. The table is a text, and the test tells the first row that is not met.
#![tactic(auto)]

#[cfg(test)]
mod tests;
