//! The rules that shapes keep (SHACL, sections 2 to 4), and the first fault of those that do not.
//!
//! | file | what it holds |
//! |---|---|
//! | `checking.rt` | `check`: the first fault of the declarations of a shapes graph; `check_shapes` |
//! | `fault.rt` | `ShapeFault`: which shape breaks a rule, and where |
//! | `rule.rt` | `Rule`: the rules, with their codes |
//! | `offenders.rt` | the first term at which a rule is broken, among the values of one predicate |
//! | `judged.rt` | what the rules look at beside these values |
//! | `restrictions.rt` | the table: what is asked of the values of a predicate |
//! | `kind.rt`, `kinds.rt` | of which kind a value is |
//! | `lists.rt` | the first of some lists that breaks a rule |
//! | `shapes.rt` | the shapes that have a path |
//! | `laws.rt` | that accepted shapes are well formed |
//!
//! It stands on `shape_decl` for the declarations, and on `value_space` for booleans and integers that are
//! well typed. Start with `checking.rt`; `specs/Faults.antt` is the whole list of faults, by rules of one
//! line each, `specs/Restrictions.antt` the table, and `specs/Kinds.antt` says what is of a kind.
#![tactic(auto)]

mod checking;
mod fault;
mod judged;
mod kind;
mod kinds;
mod laws;
mod lists;
mod offenders;
mod restrictions;
mod rule;
mod shapes;

pub use checking::{check, check_shapes};
pub use fault::{CheckFault, ShapeFault};
pub use kind::{Expected, ValueKind};
pub use laws::{accepted_literals_have_values, accepted_shapes_are_well_formed};
pub use rule::Rule;
