//! What the validator asks of the world around it, as three small traits, with their forms in memory and
//! their adapters.
//!
//! | file | what it holds |
//! |---|---|
//! | `role.rt` | `Role`: the three texts of a run |
//! | `inputs.rt` | `Inputs`: texts that are opened by name and read in pieces |
//! | `sink.rt` | `Sink`: what takes the output |
//! | `pattern_host.rt` | `PatternHost`: what builds patterns |
//! | `flags.rt`, `pattern_fault.rt` | `Flags`: how a pattern is read; `PatternFault`: why none was built |
//! | `pattern.rt` | `Pattern`: a text that the grammar of `regex` reads, with its flags |
//! | `pattern_matcher.rt` | `PatternMatcher`: what looks for a pattern in one text after another |
//! | `name.rt`, `bytes.rt`, `named_text.rt` | `Name`, `Bytes`, `NamedText`: a text that is held in memory |
//! | `honest_inputs.rt` | `HonestInputs`: texts in memory that never fail |
//! | `honest_sink.rt`, `roomy.rt` | `HonestSink`: what has the room asked for; `Roomy`: the sink over it |
//! | `memory_inputs.rt`, `memory_sink.rt` | the forms in memory, with calls that fail on demand |
//! | `failing_host.rt` | `FailingHost`: a host over another one, with calls that are refused on demand |
//! | `file_inputs.rt`, `std_sink.rt`, `regex_host.rt` | the adapters: files, standard output, `regex` |
//! | `texts.rt`, `places.rt` | texts in memory that are opened and read, and how far each role has read |
//! | `counted.rt`, `open_counts.rt` | counts of calls and faults; how often each role was opened |
//! | `refused_pattern.rt`, `memory.rt` | a pattern that was refused; `Memory`, want of memory |
//!
//! It stands on `regex` and on its grammar, `regex_syntax`. Start with `inputs.rt` and `sink.rt`;
//! `specs/Outside.antt` has what the traits tell of themselves; `specs/Told.antt`, `specs/Counted.antt` and
//! `specs/Patterns.antt` have the words of their contracts. What the outside holds is told where it can be
//! known, in memory, and not by the adapters; that a failure has its cause is promised by all of them. What
//! several calls add up to is proved in `proofs/ToldLemmas.antt`.
#![tactic(auto)]

mod bytes;
mod counted;
mod failing_host;
mod file_inputs;
mod flags;
mod honest_inputs;
mod honest_sink;
mod inputs;
mod memory;
mod memory_inputs;
mod memory_sink;
mod name;
mod named_text;
mod open_counts;
mod pattern;
mod pattern_fault;
mod pattern_host;
mod pattern_matcher;
mod places;
mod refused_pattern;
mod regex_host;
mod role;
mod roomy;
mod sink;
mod std_sink;
mod texts;

pub use bytes::Bytes;
pub use failing_host::FailingHost;
pub use file_inputs::FileInputs;
pub use flags::Flags;
pub use honest_inputs::HonestInputs;
pub use honest_sink::HonestSink;
pub use inputs::{Failed, Inputs};
pub use memory::Memory;
pub use memory_inputs::MemoryInputs;
pub use memory_sink::MemorySink;
pub use name::Name;
pub use named_text::NamedText;
pub use pattern::Pattern;
pub use pattern_fault::PatternFault;
pub use pattern_host::PatternHost;
pub use pattern_matcher::PatternMatcher;
pub use regex_host::RegexHost;
pub use role::Role;
pub use roomy::Roomy;
pub use sink::Sink;
pub use std_sink::StdSink;
