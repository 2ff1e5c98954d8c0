//! The words of the command line: which files, which base and which format they ask for.
//!
//! | file | what it holds |
//! |---|---|
//! | `asked.rt` | `Asked`: what words ask for |
//! | `words.rt` | `word_texts` and `read_words` |
//! | `command.rt` | the command by which `clap` reads words, and its matches |
//! | `values.rt` | which files, which base and which format the matches hold |
//!
//! It stands on `clap` for reading them, on `iri_resolve` for the base and on `text_output` for the format.
//! Start with `words.rt`; `specs/Words.antt` says how words are read.
#![tactic(auto)]

mod asked;
mod command;
mod values;
mod words;

pub use asked::Asked;
pub use words::{read_words, word_texts};
