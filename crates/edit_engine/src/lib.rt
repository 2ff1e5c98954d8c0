//! A validation that is kept current: a graph, the report of a plan on it, and edits, each of which evaluates
//! the pairs that it touches and no others.
//!
//! | file | what it holds |
//! |---|---|
//! | `engine.rt` | `Engine`: a graph, a plan, and what is kept of them |
//! | `telling.rt` | what it tells of the present graph |
//! | `opening.rt` | `Engine::open`: everything is evaluated once |
//! | `netting.rt` | `Engine::net_of`: what edits come to together |
//! | `applying.rt` | `Engine::apply`, `apply_all`, `apply_net`: a change, tested, evaluated and made |
//! | `adopting.rt` | `Engine::adopt`: another plan, under which what is kept of alike shapes stays |
//! | `entering.rt` | `Engine::enter`, `cut`: terms that are entered beside the graph, and given back |
//! | `edit.rt` | `Change`, `EditFault`: what came of an edit, and why nothing did |
//! | `stated.rt` | the terms of triples, found and entered |
//! | `renewing.rt` | what a change of the graph makes of what is kept, beside the graph; the opening |
//! | `renewal.rt`, `parts.rt` | `Renewal`: what is to be kept from then on, and how it is gathered |
//! | `swapping.rt` | what is taken over from under an old plan |
//! | `target_change.rt` | which nodes enter a target by a change, and which leave |
//! | `target_reads.rt` | what is read for a target, without going over its nodes |
//! | `kept.rt` | `Kept`: what is kept of targets and pairs, and how it is renewed at once |
//! | `staging.rt` | how the parts of a renewal are put in place |
//! | `laws.rt`, `net_laws.rt` | what is true of plans, and of changes |
//! | `same_graphs.rt` | what is true of graphs that hold the same triples |
//!
//! It stands on `shape_eval` for what a pair comes to, on `plan_swap` for alike shapes, and on
//! `read_records` and `pair_results` for what is kept. Start with `engine.rt` and `applying.rt`;
//! `specs/Edits.antt` says what edits come to, `specs/Nets.antt` what becomes of the graph,
//! `specs/Touched.antt` which pairs are evaluated, `specs/Applied.antt` what a change makes of an engine, and
//! `specs/Swapped.antt` what another plan does.
#![tactic(auto)]

mod adopting;
mod applying;
mod edit;
mod engine;
mod entering;
mod kept;
mod laws;
mod net_laws;
mod netting;
mod opening;
mod parts;
mod renewal;
mod renewing;
mod same_graphs;
mod staging;
mod stated;
mod swapping;
mod target_change;
mod target_reads;
mod telling;

pub use edit::{Change, EditFault};
pub use engine::Engine;
pub use laws::{entered_terms_change_no_report, plans_stay_known, plans_target_shapes_once};
pub use net_laws::{changes_can_be_taken_back, edits_come_to_a_net};
pub use same_graphs::{same_graphs_answer_alike, same_graphs_are_changed_alike};
pub use shx_term::Edit;
