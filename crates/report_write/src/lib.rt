//! What the validator answers: reports over a plan of shapes (SHACL, section 3.6), and the answers to the
//! lines of a script and to texts that are refused; each as lines, or in Turtle.
//!
//! | file | what it holds |
//! |---|---|
//! | `report.rt` | `write_report`, and its parts: what opens it, some results, what closes it |
//! | `result_line.rt` | one result as lines, with its messages |
//! | `result_block.rt` | one result in Turtle |
//! | `result_names.rt` | the names of components and of severities |
//! | `path.rt`, `path_form.rt` | how a path is written, and the marks of each form |
//! | `answer.rt` | `Answer` and its text |
//! | `slice.rt` | the text of a slice |
//! | `roles.rt` | the names of what texts are read for |
//!
//! It stands on `shx_term`, `shx_outside` and `text_output` for texts, on `comp_core` for results, on
//! `path_eval` for paths and on `shape_eval` for plans. Start with `report.rt`; `specs/ReportTexts.antt` has
//! the text of a report, `specs/PathTexts.antt` that of a path, and `specs/Answers.antt` those of answers.
#![tactic(auto)]

mod answer;
mod path;
mod path_form;
mod report;
mod result_block;
mod result_line;
mod result_names;
mod roles;
mod slice;

pub use answer::{Answer, add_answer, write_answer};
pub use path::add_path;
pub use report::{add_head, add_rows, add_tail, write_report};
pub use slice::write_slice;
pub use text_output::Format;
