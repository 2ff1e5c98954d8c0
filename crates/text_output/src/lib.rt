//! Texts into a sink, without memory: a writer that gathers them, and the texts of numbers and terms.
//!
//! | file | what it holds |
//! |---|---|
//! | `writer.rt` | `Writer`: gathers texts, puts them in large pieces, and remembers its first failure |
//! | `pending.rt`, `put_all.rt` | the bytes that it gathers; a text put whole |
//! | `format.rt` | `Format`: lines, or Turtle |
//! | `write_fault.rt` | `WriteFault`: the one error of a text that is written whole |
//! | `number.rt`, `term.rt` | numbers and terms; terms by their numbers |
//!
//! It stands on `shx_term`, `shx_outside` and `itoa`. Start with `writer.rt`; `specs/Writes.antt` says what
//! is left in a sink, and `specs/TermTexts.antt` what is written of a number's term. A text of several parts
//! is written by a function over `shx_term::Pieces`, which adds the parts in turn.
#![tactic(auto)]

mod format;
mod number;
mod pending;
mod put_all;
mod term;
mod write_fault;
mod writer;

pub use format::Format;
pub use number::add_number;
pub use term::{add_optional, add_term, write_term};
pub use write_fault::WriteFault;
pub use writer::Writer;
