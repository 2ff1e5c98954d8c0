//! A run of the validator: from the words of the command line and the texts that they name to the report,
//! and on to the answers to a script.
//!
//! | file | what it holds |
//! |---|---|
//! | `top.rt` | `run`: the whole run, with its theorem |
//! | `complete.rt` | laws: what follows where nothing outside fails |
//! | `report_alone.rt` | a law: what is due without a script |
//! | `status.rt`, `ending.rt` | how a run ends |
//! | `prepare.rt` | from the texts to a validation, or to why there is none |
//! | `open_validation.rt` | from the data text to a validation |
//! | `run_validation.rt` | the report of a validation, and its script where there is one |
//! | `evaluation.rt` | all results of a graph, where there is none |
//! | `node_rows.rt` | results by node, and how they come into term order |
//! | `serve.rt`, `take_line.rt` | a script line by line: taken, and answered |
//!
//! It stands on `shape_text` for what texts state and what shapes come to, on `script_run` for what each line
//! of a script does, on `text_input` for the lines, and on `report_write` and `command_words`.
//! Start with `top.rt`; `specs/RunClauses.antt` says what a run promises, `specs/Run.antt` what it writes.
#![tactic(auto)]

mod complete;
mod ending;
mod evaluation;
mod node_rows;
mod open_validation;
mod prepare;
mod report_alone;
mod run_validation;
mod serve;
mod status;
mod take_line;
mod top;

pub use complete::{
    a_roomy_sink_never_fails, an_undisturbed_run_is_due, honest_inputs_never_fail,
    no_pattern_is_never_refused, runs_are_complete,
};
pub use report_alone::a_report_alone_tells_its_status;
pub use script_run::{scripts_stand_well, undo_gives_back};
pub use status::Status;
pub use top::run;
