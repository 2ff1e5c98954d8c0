//! Lists of numbers that many hold and look up, as the members of a SHACL list that many shapes share.
//!
//! | file | what it holds |
//! |---|---|
//! | `list.rt` | `IdList`: numbers in order, in memory once whoever holds a copy |
//! | `listed.rt` | what its copies share: the numbers, and of many a set |
//!
//! It stands on `shx_term` for numbers of terms. Start with `list.rt`.
#![tactic(auto)]

mod list;
mod listed;

pub use list::IdList;
