//! Graphs at work, as tests alone: keys and sets of them, graphs that are edited, changed and lent.
//!
//! | file | what it holds |
//! |---|---|
//! | `tests/letters.rt` | terms of every kind by letters, and triples and graphs by them |
//! | `tests/keys.rt` | which keys a triple touches, and sets of keys |
//! | `tests/found.rt` | what look-ups find |
//! | `tests/questions.rt` | questions to a graph, and whether two graphs are the same |
//! | `tests/ending.rt`, `tests/change.rt` | how an edit ends, and a change of a graph |
//! | `tests/steps.rt` | a step that changes a graph, or asks it, with its answer |
//! | `tests/cuts.rt` | a step that takes terms out of the pool |
//! | `tests/edits.rt` | graphs that go through the steps of `tests/edits/rows.rt` |
//! | `tests/changes.rt` | changes of `tests/changes/rows.rt`, looked through and made |
//! | `tests/graphs.rt` | what the plain graph alone has |
//! | `tests/dealt.rt` | stores that are made of few and of many triples at once |
//! | `tests/many.rt` | many edits of one store, in time |
//!
//! It stands on `graph_view`, `triple_store` and `shx_term`, on `due_view` for what is read, and on
//! `row_tools`. Start with `tests/letters.rt`. A table is a text, and a test tells the first row that is
//! not met.
#![tactic(auto)]

#[cfg(test)]
mod tests;
