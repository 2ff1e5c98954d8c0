//! A script that is being answered: what each line does to the graph or the shapes, and what is said to it.
//!
//! | file | what it holds |
//! |---|---|
//! | `validation.rt` | `Validation`: the plan of the shapes, and the data graph |
//! | `script_run.rt` | `ScriptRun`: the engine that keeps the report, and how far the script has come |
//! | `reply.rt` | `reply_to`: a line is done, and what is said to it; `write_reply` writes that |
//! | `changing.rt` | lines that change the graph: edits, groups, undo and redo |
//! | `loading.rt` | a line that loads shapes: those of another text take the place of those in force |
//! | `slicing.rt` | why a node fails, or not |
//! | `alike.rt` | a law: the same comes of a change as the graph is stored |
//! | `read_once.rt` | a law: a line has one reading |
//! | `undone.rt` | laws: what undo gives back, and redo |
//! | `stored_graph.rt` | the form in which graphs are stored |
//!
//! It stands on `edit_engine` for results that are kept current and on `edit_history` for changes that can be
//! taken back, on `triple_store` for graphs, on `script_lines` for lines, on `shape_text` and `plan_swap` for
//! other shapes, on `pair_slice` for slices and on `report_write` for answers. Start with `reply.rt`;
//! `specs/Script.antt` says what each line does, `specs/Stored.antt` how what is kept stands for the state
//! that is spoken of there, and `specs/Loaded.antt` what is told of texts that lines load.
#![tactic(auto)]

mod alike;
mod changing;
mod loading;
mod read_once;
mod reply;
mod script_run;
mod slicing;
mod stored_graph;
mod undone;
mod validation;

pub use read_once::lines_are_read_once;
pub use reply::{Reply, refuse_line, reply_to, write_reply};
pub use script_run::ScriptRun;
pub use stored_graph::StoredGraph;
pub use undone::{scripts_stand_well, undo_gives_back};
pub use validation::Validation;
