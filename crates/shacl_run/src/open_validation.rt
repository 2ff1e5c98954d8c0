//! From the data text to a validation.
ghost use Rattle.std.specs.Prelude.{◌≡◌, ◌≤◌, length, IfOk, IfErr};
ghost use Rattle.iri_resolve.specs.Resolution.{IsAbsolute};
ghost use Rattle.graph_view.specs.Graph.{graph_of};
ghost use Rattle.graph_view.specs.SameGraph.{SameGraph};
ghost use Rattle.graph_view.specs.ListGraph.{plain_graph};
ghost use Rattle.graph_view.specs.Valid.{IsValidView};
ghost use Rattle.ttl_meaning.specs.State.{State};
ghost use Rattle.shape_eval.specs.Plan.{IsKnownPlan, RefersLower};
ghost use Rattle.shape_eval.specs.Planned.{plan_of};
ghost use Rattle.shacl_run.specs.inner.Validation.{Opens, RefusesData};
ghost use Rattle.shape_text.specs.Unopened.{IsStill};
ghost use Rattle.script_run.specs.Stored.{Stands};
ghost use Rattle.shape_text.specs.Turtle.{HasNoWide};
ghost use Rattle.shacl_run.specs.inner.Validation.{TargetsItsOwn};
ghost use Rattle.shape_text.specs.Names.{HasNamesOf};
ghost use Rattle.shape_text.specs.TextReadings.{IsKnownDocument};

use edit_engine::plans_stay_known;
use script_run::{StoredGraph, Validation};
use shape_text::{Accepted, Unopened, read_turtle};
use shx_term::{IriText, Limits, Memory, Scope};
use std::alloc::Global;
use std::mem;
use text_output::Format;
use ttl_read::Document;

/// A validation over the graph of a data text, before the first line of the script, or why the text is
/// refused.
pub fn open_validation(
    alloc: Global,
    accepted: Accepted,
    text: Vec<u8>,
    base: &IriText,
    format: Format,
    limits: &Limits,
) -> Result<Validation, Unopened>
    requires absolute { IsAbsolute base.now }
    requires depth { limits.now.turtle_depth ≤ 128 }
    requires limit { accepted.pool.limit ≡ limits.now.terms }
    requires within { length text.items ≤ limits.now.text }
    requires known { IsKnownPlan accepted.pool.terms (plan_of accepted.plan).shapes }
    requires refers { RefersLower (plan_of accepted.plan).shapes }
    requires within_plan { TargetsItsOwn (plan_of accepted.plan) }
    requires no_wide { HasNoWide accepted.pool.terms }
    ensures opened { IfOk result
        (Opens limits.now format base.now accepted.pool.terms (plan_of accepted.plan) text.items) }
    ensures refused { IfErr result (RefusesData limits.now base.now accepted.pool.terms text.items) }
    ensures passed { IfOk result (λ validation. validation.passed_over ≡ accepted.passed_over) }
    ensures stands { IfOk result Stands }
    ensures cut { IfErr result IsStill }
{
    // The plan stays known among the terms of the data.
    plans_stay_known();
    let mut accepted = accepted;
    let document = match read_turtle(alloc, text, base, Scope::Data, limits, &mut accepted.pool) {
        Ok(document) => document,
        Err(refusal) => return Err(Unopened::of(refusal, accepted.pool)),
    };
    Ok(validation_over(alloc, accepted, document, format, limits.triples)?)
}

// A validation over the graph of a document, of which only the names are kept.
fn validation_over(
    alloc: Global,
    accepted: Accepted,
    mut document: Document,
    format: Format,
    limit: u64,
) -> Result<Validation, Memory>
    requires known { IsKnownDocument limit
        (record { terms = accepted.pool.terms; triples = document.triples.items }) }
    requires valid { IsValidView (record { terms = accepted.pool.terms; triples = document.triples.items }) }
    requires plan { IsKnownPlan accepted.pool.terms (plan_of accepted.plan).shapes }
    requires refers { RefersLower (plan_of accepted.plan).shapes }
    requires within_plan { TargetsItsOwn (plan_of accepted.plan) }
    ensures stores { IfOk result (λ validation.
        SameGraph (graph_of accepted.pool.terms document.triples.items) (plain_graph validation.graph)) }
    ensures names { (end : State) → HasNamesOf end document
        → IfOk result (λ validation. HasNamesOf end validation.document) }
    ensures plan { IfOk result (λ validation. plan_of validation.plan ≡ plan_of accepted.plan) }
    ensures stands { IfOk result Stands }
    ensures passed { IfOk result (λ validation. validation.passed_over ≡ accepted.passed_over) }
    ensures format { IfOk result (λ validation. validation.format ≡ format) }
    ensures triple_limit { IfOk result (λ validation. validation.graph.limit ≡ limit) }
    ensures term_limit { IfOk result (λ validation. validation.graph.pool.limit ≡ accepted.pool.limit) }
{
    let Accepted {
        pool,
        plan,
        passed_over,
    } = accepted;
    let triples = mem::replace(&mut document.triples, Vec::new(alloc));
    let graph = StoredGraph::from_triples(alloc, pool, triples, limit)?;
    Ok(Validation {
        graph,
        document,
        plan,
        format,
        passed_over,
    })
}
