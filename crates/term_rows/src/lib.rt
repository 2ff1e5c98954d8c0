//! Terms and the pool at work, as tests alone.
//!
//! | file | what it holds |
//! |---|---|
//! | `tests/terms.rt` | terms in their order, with their spelling; texts, IRIs and labels |
//! | `tests/codes.rt` | the codes of faults with their names; schemes |
//! | `tests/pools.rt` | the vocabulary, and pools that are asked and changed, step by step |
//! | `tests/pools/rows.rt` | the steps |
//! | `tests/keys.rt` | the keyed hash of a pool's terms |
//! | `tests/limits.rt` | limits and steps |
//!
//! It stands on `shx_term` and `row_tools`. A table is a text, and a test tells the first row that is not
//! met.
#![tactic(auto)]

#[cfg(test)]
mod tests;
