//! The lines of a script of edits, behind a data text: what each asks for, or the fault that it has.
//!
//! | file | what it holds |
//! |---|---|
//! | `line.rt` | `read_line`: the command of a line |
//! | `command.rt` | `Command`: what a line asks for |
//! | `fault.rt` | `LineFault`: why a line is no command |
//! | `line_form.rt` | the form of a line, by its tokens |
//! | `word.rt` | `Word`: the words that stand alone, and the word with which a line begins |
//! | `term.rt` | the terms of a line |
//! | `laws.rt` | a line has one reading, by the base, prefixes and blank nodes of the data text |
//!
//! It stands on `ttl_tokens` for the tokens of a line, on `ttl_read` for its terms and on `ttl_meaning` for
//! the names of shapes. Start with `line.rt`; `specs/Forms.antt` says which forms a line may have, and
//! `specs/Lines.antt` what it then asks for.
#![tactic(auto)]

mod command;
mod fault;
mod laws;
mod line;
mod line_form;
mod term;
mod word;

pub use command::Command;
pub use fault::LineFault;
pub use laws::{a_line_has_one_reading, names_decide_a_line};
pub use line::read_line;
