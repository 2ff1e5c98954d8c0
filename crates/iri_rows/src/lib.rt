//! References at work, as tests alone.
//!
//! | file | what it holds |
//! |---|---|
//! | `tests/references.rt` | references over bases, with what they resolve to; texts that are absolute |
//! | `tests/references/rows.rt` | the tables, with the examples of RFC 3986, section 5.4 |
//!
//! It stands on `iri_resolve`, `shx_term` and `row_tools`. A table is a text, and a test tells the first
//! row that is not met.
#![tactic(auto)]

#[cfg(test)]
mod tests;
