//! What a text of Turtle states within the limits; and of a text of shapes the plan, or what stands in its
//! way.
//!
//! | file | what it holds |
//! |---|---|
//! | `within.rt` | `read_within`: a text of the inputs, within its limit |
//! | `turtle.rt` | `read_turtle`: what a text states, or its fault |
//! | `judging.rt` | `judge`: from a shapes text to a plan; `plan_shapes`: from a graph to a plan |
//! | `stated_plan.rt` | `plan_stated`: from triples over a pool to a plan |
//! | `obstacle.rt` | what stands in the way of a plan, as it is told |
//! | `refusal.rt`, `unopened.rt` | why a text is not taken, and why there is no plan of it |
//! | `stop.rt` | why a run is cut short |
//! | `same_plans.rt` | a law: plans that mean the same write the same |
//!
//! It stands on `text_input` and `ttl_read` for texts, on `triple_store` for graphs, on `shape_decl`,
//! `shape_check` and `shape_compile` for shapes, on `plan_swap` for what the same shapes of two plans find,
//! and on `report_write` for reports and for the answers by which texts are refused.
//! Start with `judging.rt`; `specs/TextReadings.antt` says what a text is read as, `specs/Verdict.antt` what
//! shapes come to, `specs/Judging.antt` what is promised of that, and `specs/SamePlans.antt` what plans that
//! mean the same have in common.
#![tactic(auto)]

mod judging;
mod obstacle;
mod refusal;
mod same_plans;
mod stated_plan;
mod stop;
mod turtle;
mod unopened;
mod within;

pub use judging::{Accepted, judge, plan_shapes};
pub use refusal::Refusal;
pub use same_plans::plans_write_the_same;
pub use stated_plan::plan_stated;
pub use stop::Stop;
pub use turtle::read_turtle;
pub use unopened::Unopened;
pub use within::read_within;
