//! The values of literals and their order, as tests alone.
//!
//! | file | what it holds |
//! |---|---|
//! | `tests/rows.rt` | the table: literals with their values, two terms, counts and terms |
//! | `tests/claims.rt` | the test, which goes over the table |
//! | `tests/literals.rt` | values of literals |
//! | `tests/terms.rt` | which terms are less than which, and counts against terms |
//!
//! It stands on `value_space`, `shx_term` and `row_tools`. The table is a text of lines, and the test asks
//! for the first line that is met otherwise.
#![tactic(auto)]

#[cfg(test)]
mod tests;
