//! From the declarations of a shapes graph to a plan.
//!
//! | file | what it holds |
//! |---|---|
//! | `compiling.rt` | `compile`: the plan of declared shapes, or what stands in its way |
//! | `fault.rt` | `CompileFault`: what stands in the way |
//! | `plan_shapes.rt`, `plan_shape.rt` | the shapes of a plan, and what one of them states |
//! | `patterns.rt`, `texts.rt` | patterns, which are built before all else, and their flags |
//! | `targets.rt` | the targets that a shape states |
//! | `constraints.rt` | all constraints that a shape states, in order |
//! | `parameter.rt` | those that need no more than the value of their parameter |
//! | `of_shape.rt`, `of_shape_list.rt`, `of_count.rt` | those that name other shapes |
//! | `of_list.rt`, `lists.rt` | those with the members of a list |
//! | `pattern.rt`, `closed.rt` | patterns and unique languages; closed shapes |
//! | `numbers.rt` | the numbers of the shapes that are named |
//! | `reading.rt` | what is read of the terms of counts and bounds |
//!
//! It stands on `shape_decl` and `shape_check` for declarations, on `shape_refs` for their order, and on
//! `shape_eval` with the crates of components for plans. Start with `compiling.rt`; `specs/Meaning.antt` says
//! what a plan means, `specs/Constraints.antt` which constraints a shape states, and `specs/Answers.antt`
//! what is answered.
#![tactic(auto)]

mod closed;
mod compiling;
mod constraints;
mod fault;
mod lists;
mod numbers;
mod of_count;
mod of_list;
mod of_shape;
mod of_shape_list;
mod parameter;
mod pattern;
mod patterns;
mod plan_shape;
mod plan_shapes;
mod reading;
mod targets;
mod texts;

pub use compiling::compile;
pub use fault::CompileFault;
