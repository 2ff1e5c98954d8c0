//! Texts and scripts of the outside, read within their limits.
//!
//! | file | what it holds |
//! |---|---|
//! | `text.rt` | `read_text`: a text read to its end, if it is no longer than it may be |
//! | `script_reader.rt` | `ScriptReader`: a script read line by line; `Line`: what stands next in it |
//! | `read_fault.rt` | `ReadFault`: why a text was not read |
//!
//! It stands on `shx_outside` alone. Start with `text.rt`; `specs/Lines.antt` says what the lines of a text
//! and of a script are, `specs/TextRead.antt` and `specs/ScriptReader.antt` what the two calls promise. What
//! follows from them is proved in `LineLemmas`, `ScriptLineLemmas` and `CountLemmas`, in `proofs/`.
#![tactic(auto)]

mod read_fault;
mod script_reader;
mod text;

pub use read_fault::ReadFault;
pub use script_reader::{Line, ScriptReader};
pub use text::read_text;
