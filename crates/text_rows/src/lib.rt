//! What is read and written, as tests alone: inputs and sinks, patterns, texts and scripts, output.
//!
//! | file | what it holds |
//! |---|---|
//! | `tests/outside.rt` | the inputs and the sinks in memory, and files |
//! | `tests/patterns.rt` | patterns with their flags, hard ones, and what is refused |
//! | `tests/texts.rt` | whole texts and the lines of a script, within their limits |
//! | `tests/output.rt` | texts, numbers and terms that are put into a sink |
//! | `tests/told.rt` | how faults and a host are told |
//!
//! It stands on `shx_outside`, `text_input`, `text_output`, `shx_term` and `row_tools`. A
//! table is a text of lines, and a test tells the first line that is not met.
#![tactic(auto)]

#[cfg(test)]
mod tests;
