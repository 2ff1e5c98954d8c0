//! The engine at work, as tests alone: what is looked up for an edit, and what stays where one is refused.
//!
//! | file | what it holds |
//! |---|---|
//! | `tests/rows.rt` | the table: shapes, data and steps |
//! | `tests/blocks.rt` | a block: an engine is opened, takes other shapes, and goes through steps |
//! | `tests/steps.rt` | a step: what is asked of the engine, and what is due |
//! | `tests/edits.rt` | edits, which are tried until nothing is refused |
//! | `tests/entered.rt` | terms that are entered beside the graph, and given back |
//! | `tests/told.rt` | what an engine tells, to be held beside what it told before |
//! | `tests/watched.rt` | a graph in which look-ups and changes are counted, and refused |
//! | `tests/opened.rt` | plans and graphs of texts |
#![tactic(auto)]

#[cfg(test)]
mod tests;
