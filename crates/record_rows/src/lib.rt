//! What is recorded, kept and remembered of pairs, as tests alone: after some steps, what a reader has read,
//! whom a triple touches, which results there are, and what is found of a pair.
//!
//! | file | what it holds |
//! |---|---|
//! | `tests/rows.rt` | the table of records: steps, a question, and its answer |
//! | `tests/steps.rt` | the steps and the questions of a row |
//! | `tests/cells.rt` | readers, keys and triples as rows say them |
//! | `tests/results.rt` | the table of results: steps, a question, and its answer |
//! | `tests/recall.rt` | the table of what is remembered: steps, a question, and its answer |
#![tactic(auto)]

#[cfg(test)]
mod tests;
