//! Who read what: which parts of a graph, and which answers, were read for the target nodes of a shape or for
//! a pair itself, and so whom an edit reaches; and what is remembered of pairs until an edit reaches them.
//!
//! | file | what it holds |
//! |---|---|
//! | `records.rt` | `Records`: what each reader has read; changes are staged, and made at once |
//! | `reader.rt` | `Reader`: the target of a shape, or a pair |
//! | `recall.rt` | `Recall`: the results of pairs, with what was read for each itself |
//! | `store.rt` | `Store`: for each reader a value beside its keys; `Records` is one with no value |
//! | `noted.rt` | `Noted`: a value, and the keys that were read for it |
//! | `notes.rt` | what is noted for each reader, and under which keys it stands for that |
//! | `filing.rt` | under each key its readers |
//! | `by_kind.rt` | postings for each kind of key |
//! | `postings.rt` | the postings of one kind, as a tree |
//! | `posting.rt` | `Posting`: the numbers of a key and of a reader |
//! | `reached.rt` | searches along answers that were read for others |
//! | `touched.rt` | the keys that triples touch |
//! | `gathered.rt` | readings that are gathered, and then put in order at once |
//!
//! It stands on `comp_core` for pairs and on `graph_view` for keys. Start with `records.rt` and `recall.rt`;
//! `specs/Records.antt` says what is recorded, and whom a triple touches, and `specs/Recall.antt` what is
//! remembered.
#![tactic(auto)]

mod by_kind;
mod filing;
mod gathered;
mod noted;
mod notes;
mod posting;
mod postings;
mod reached;
mod reader;
mod recall;
mod records;
mod store;
mod touched;

pub use reader::Reader;
pub use recall::Recall;
pub use records::Records;
