//! Runs of the validator over the forms in memory, as tests alone: what the program cannot show, since it has
//! limits of its own, and files and an output that rarely fail. All other runs are texts in the folder `runs`
//! of the repository.
//!
//! | file | what it holds |
//! |---|---|
//! | `tests/case.rt` | `Case`: a run as a block of text, with the output and the status that are due |
//! | `tests/outside.rt` | `Outside`: how much a read and a put take, and which calls fail |
//! | `tests/runs.rt` | a run of a case, and the first of a table that ends in another way |
//! | `tests/limits.rt` | texts and shapes at each limit and one past it |
//! | `tests/scripts.rt` | lines, scripts and edits at each limit and one past it |
//! | `tests/shapes.rt` | lines that load other shapes, where the outside fails or a limit is met |
//! | `tests/groups.rt` | groups and changes that are taken back, at their limits and at those of the graph |
//! | `tests/failures.rt` | each call of the inputs and each put fails in turn |
//! | `tests/mixed.rt` | the same where the script has lines of each kind |
//! | `tests/honest.rt` | a run over inputs that never fail, and a sink with room for what is due |
//! | `tests/order.rt` | when texts are opened and answered, and patterns built, which no contract says |
//! | `tests/words.rt` | words of a command line, and what they ask for |
//!
//! It stands on `shacl_run`, on `shx_outside` and `shx_term` for the forms in memory and the limits, on
//! `command_words` and `text_output`, and on `row_tools`. Start with `tests/case.rt` and `tests/limits.rt`.
#![tactic(auto)]

#[cfg(test)]
mod tests;
