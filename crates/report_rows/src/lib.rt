//! Reports and answers as they are written, as tests alone: results of a plan, paths, answers and a slice.
//!
//! | file | what it holds |
//! |---|---|
//! | `tests/rows.rt` | the tables, each with the texts in both formats |
//! | `tests/reports.rt` | the report, put by itself and in parts |
//! | `tests/results.rt` | the results of a report |
//! | `tests/plans.rt` | a plan of one shape without constraints |
//! | `tests/paths.rt` | paths |
//! | `tests/answers.rt` | answers, with the names of codes |
//! | `tests/slices.rt` | a slice |
//!
//! It stands on `report_write`, `shape_eval` and the crates below them, and on `row_tools`. Start with
//! `tests/rows.rt`. A table is a text, and a test tells the first block or row that is not met.
#![tactic(auto)]

#[cfg(test)]
mod tests;
