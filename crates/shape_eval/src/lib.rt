//! Plans of shapes, and what they find: the target nodes of a shape, its results at a node, and what is read
//! for them (SHACL, sections 2.1 and 3.4).
//!
//! | file | what it holds |
//! |---|---|
//! | `plan.rt` | `Plan`: shapes by number, each of which names lower numbers alone |
//! | `planning.rt` | how a plan is made, and what it holds |
//! | `shape.rt`, `target.rt` | `PlanShape`, `Target`: what a shape states |
//! | `constraint.rt` | `Constraint`: any of the 29 components with its parameters |
//! | `constraint_component.rt` | a constraint is a component, by cases |
//! | `pairs.rt` | `eval_pair`: the results of a shape at a node, and what was read for the pair itself |
//! | `targets.rt` | `eval_target`, `eval_target_by_number`: the target nodes of a shape |
//! | `answering.rt` | the pairs that a pair asks are answered first, and then its constraints are checked |
//! | `checking.rt` | the constraints of a shape, checked at a node over answers that are held |
//! | `told.rt` | what is told of pairs while one is evaluated |
//! | `answers.rt` | `Answers`: answers that are remembered, found by hash |
//! | `known.rt`, `matchers.rt` | `Known`: what one evaluation finds and the next knows |
//! | `laws.rt` | results and target nodes depend on their reads alone; reads and answers; empty reports |
//!
//! It stands on the four crates of components, on `path_eval` for value nodes and instances, and on
//! `shape_order` for what it is to refer to something. Start with `plan.rt` and `pairs.rt`;
//! `specs/Results.antt` says what the results are, `specs/Targets.antt` which nodes are targets, and
//! `specs/Report.antt` what a report is.
#![tactic(auto)]

mod answering;
mod answers;
mod checking;
mod constraint;
mod constraint_component;
mod known;
mod laws;
mod matchers;
mod pairs;
mod plan;
mod planning;
mod shape;
mod target;
mod targets;
mod told;

pub use answers::Answers;
pub use comp_core::PairAnswer;
pub use constraint::Constraint;
pub use known::Known;
pub use laws::{
    a_report_is_empty_where_all_conform, edits_beside_a_pair, levels_do_not_matter,
    nested_pairs_are_read, nested_pairs_stand_below, reads_are_own_or_below, reads_have_terms,
    results_depend_on_reads, results_have_terms, targets_depend_on_reads,
};
pub use pairs::eval_pair;
pub use plan::Plan;
pub use shape::PlanShape;
pub use target::Target;
pub use targets::{eval_target, eval_target_by_number};
