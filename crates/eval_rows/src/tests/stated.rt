//! Graphs and plans of texts in Turtle.
ghost use Rattle.std.specs.Prelude.{IfOk};
ghost use Rattle.shape_eval.specs.Plan.{IsKnownPlan};
ghost use Rattle.shape_eval.specs.Planned.{plan_of};

use due_view::is_known_triple;
use graph_view::{GraphEdit, GraphView, ListGraph};
use iri_resolve::is_absolute;
use row_tools::{RowFault, iri_text, vocabulary_pool};
use shape_check::{CheckFault, check_shapes};
use shape_compile::{CompileFault, compile};
use shape_eval::Plan;
use shx_outside::RegexHost;
use shx_term::{Limits, Pool, Scope, Triple};
use std::alloc::Global;
use ttl_read::{Document, TtlFault, read_document};

const PREFIXES: &str = "\
@prefix e: <http://e/> .
@prefix sh: <http://www.w3.org/ns/shacl#> .
@prefix rdf: <http://www.w3.org/1999/02/22-rdf-syntax-ns#> .
@prefix rdfs: <http://www.w3.org/2000/01/rdf-schema#> .
@prefix xsd: <http://www.w3.org/2001/XMLSchema#> .
";

// What a text behind the prefixes states.
fn read(alloc: Global, text: &str, pool: &mut Pool) -> Result<Document, RowFault> {
    let base = "file:///";
    if !is_absolute(base) {
        return Err(RowFault::Unread);
    }
    let base = iri_text(alloc, base)?;
    let text = format!(in alloc; "{PREFIXES}{text}")?;
    match read_document(
        alloc,
        text.as_bytes(),
        &base,
        Scope::Data,
        &Limits::program(),
        pool,
    ) {
        Ok(document) => Ok(document),
        Err(TtlFault::At { .. }) => Err(RowFault::Unread),
        Err(TtlFault::Memory) => Err(RowFault::Memory),
    }
}

fn state(graph: &mut ListGraph, t: Triple) -> Result<(), RowFault> {
    if !is_known_triple(graph, &t) || graph.insert(t).is_err() {
        return Err(RowFault::Unread);
    }
    Ok(())
}

/// The graph of a text, which has shapes and data.
pub(super) fn graph_of(alloc: Global, text: &str) -> Result<ListGraph, RowFault> {
    let mut pool = vocabulary_pool(alloc, 1_000)?;
    let document = read(alloc, text, &mut pool)?;
    let mut graph = ListGraph::new(alloc, pool, 1_000);
    for t in &document.triples {
        state(&mut graph, *t)?;
    }
    Ok(graph)
}

/// The plan of the shapes of a graph.
pub(super) fn plan_in(alloc: Global, graph: &ListGraph) -> Result<Plan, RowFault>
    ensures { IfOk result (λ plan. IsKnownPlan graph.now.pool.terms (plan_of plan).shapes) }
{
    let limits = Limits::program();
    let decls = match check_shapes(alloc, graph, &limits) {
        Ok(decls) => decls,
        Err(CheckFault::Shape(_)) => return Err(RowFault::Unread),
        Err(CheckFault::Memory) => return Err(RowFault::Memory),
    };
    let mut host = RegexHost::new();
    match compile(alloc, &decls, graph.pool(), &limits, &mut host) {
        Ok(plan) => Ok(plan),
        Err(CompileFault::Memory) => Err(RowFault::Memory),
        Err(_) => Err(RowFault::Unread),
    }
}
