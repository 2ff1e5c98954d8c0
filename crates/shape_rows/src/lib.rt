//! Shapes at work, as tests alone: what graphs declare, the first fault of that, or the plan it comes to.
//!
//! | file | what it holds |
//! |---|---|
//! | `tests/asked.rt` | `is_met`: a row, with what it asks of its graph |
//! | `tests/graphs.rt` | graphs, made of texts, and limits |
//! | `tests/due.rt` | `Due`: a text that is taken piece by piece |
//! | `tests/names.rt` | what rows call terms, and how they write lists of them |
//! | `tests/lists.rt` | nodes that are lists, and nodes that are none |
//! | `tests/paths.rt` | what is read of a node as a path, within limits |
//! | `tests/declarations.rt` | the shapes of graphs, with what is stated of each; triples with sh:sparql |
//! | `tests/faults.rt` | the first fault of a graph, within limits |
//! | `tests/plans.rt` | the plans of graphs, or what stands in their way |
//! | `tests/hosts.rt` | `NoPatterns`: a host that builds no pattern |
//!
//! It stands on `shape_decl`, `shape_check` and `shape_compile`, and on `row_tools`. A table is a text of
//! rows, and a test tells the first row that is not met. Start with `asked.rt`.
#![tactic(auto)]

#[cfg(test)]
mod tests;
