//! Turtle at work, as tests alone: its tokens, what texts state, terms behind a document, and the lines of a
//! script.
//!
//! | file | what it holds |
//! |---|---|
//! | `tests/outcomes.rt` | `is_as_said`: what a row comes to, by the word that it begins with |
//! | `tests/seen.rt` | what the tables share: signs, documents, and what is written of them |
//! | `tests/tokens.rt` | texts and their tokens, and what a token stands for, by the table beside it |
//! | `tests/documents.rt` | texts within limits, and what they state or their fault, by the table beside it |
//! | `tests/terms.rt` | what is found at one token behind a document, by the table beside it |
//! | `tests/lines.rt` | lines, and what they are read as behind a document, by the table beside it |
//!
//! It stands on `ttl_tokens`, `ttl_read`, `script_lines` and `row_tools`. Start with `tests/outcomes.rt`. A
//! table is a text of rows, and a test fails with the first row that is met otherwise.
#![tactic(auto)]

#[cfg(test)]
mod tests;
