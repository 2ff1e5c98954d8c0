//! What a constraint component is: what it asks, what it finds and what it reads (SHACL, section 4).
//!
//! | file | what it holds |
//! |---|---|
//! | `component.rt` | `Component`, with its laws |
//! | `conform.rt` | `Conform`: who tells what was found at other shapes |
//! | `pair.rt` | `Pair`: a node at which a shape is checked; `At`: where a constraint is checked |
//! | `memo.rt` | `PairAnswer`: what a pair comes to; `Memo`: where that is remembered |
//! | `row.rt` | `ResultRow`: a result |
//! | `row_list.rt` | `RowList`: the results at one node |
//! | `detail.rt` | `Details`: the results on which a result rests |
//! | `results.rt` | results as most components give them |
//! | `asking.rt` | asking about a node at some shapes |
//! | `lookup.rt`, `held.rt` | `Lookup`: numbers that are looked up again and again, and how they are held |
//! | `kinds.rt` | `Kind`: the number of a component, and a constant for each |
//! | `table.rt` | `AnswerTable`: answers that are given beforehand, for tests of components |
//!
//! It stands on `shx_term` and `graph_view`. Start with `component.rt`; `specs/Laws.antt` says what is true
//! of every component.
#![tactic(auto)]

mod asking;
mod component;
mod conform;
mod detail;
mod held;
pub mod kinds;
mod lookup;
mod memo;
mod pair;
mod results;
mod row;
mod row_list;
mod table;

pub use asking::{ask_at, ask_shapes, conforming};
pub use component::Component;
pub use conform::Conform;
pub use detail::{DetailRow, Details};
pub use kinds::Kind;
pub use lookup::Lookup;
pub use memo::{Memo, PairAnswer, Recalled};
pub use pair::{At, Pair, ShapeNo};
pub use results::{add_copies, add_once_if, add_resting_on, add_unless};
pub use row::ResultRow;
pub use row_list::RowList;
pub use table::{AnswerTable, Answered};
