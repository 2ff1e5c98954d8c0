//! Plans and graphs of texts.
ghost use Rattle.std.specs.Prelude.{◌≡◌, ◌++◌, List, IfOk, OnOk};
ghost use Rattle.shx_term.specs.declared.term.Term.{Term};
ghost use Rattle.graph_view.specs.ListGraph.{plain_graph};
ghost use Rattle.graph_view.specs.Valid.{IsValidView};
ghost use Rattle.shape_eval.specs.Plan.{IsPlan, planned};
ghost use Rattle.shape_eval.specs.Planned.{plan_of};
ghost use Rattle.edit_engine.specs.MayBeAsked.{MayBeAsked};

use due_view::{is_known_triple, is_valid};
use edit_engine::{plans_stay_known, plans_target_shapes_once};
use graph_view::{GraphEdit, GraphView, ListGraph};
use iri_resolve::is_absolute;
use row_tools::{RowFault, iri_text, vocabulary_pool};
use shape_check::{CheckFault, check_shapes};
use shape_compile::{CompileFault, compile};
use shape_eval::Plan;
use shx_outside::RegexHost;
use shx_term::{Limits, Pool, Scope, Triple};
use std::alloc::Global;
use ttl_read::{Document, TtlFault, read_document};

const PREFIXES: &str = "\
@prefix e: <http://e/> .
@prefix sh: <http://www.w3.org/ns/shacl#> .
@prefix rdf: <http://www.w3.org/1999/02/22-rdf-syntax-ns#> .
@prefix rdfs: <http://www.w3.org/2000/01/rdf-schema#> .
@prefix xsd: <http://www.w3.org/2001/XMLSchema#> .
";

// How many triples the data may hold.
const TRIPLES: u64 = 8;

// What a text behind the prefixes states. The terms of the pool stay.
fn read(alloc: Global, text: &str, scope: Scope, pool: &mut Pool) -> Result<Document, RowFault>
    ensures { OnOk result ((more : List Term) × (pool.new.terms ≡ pool.old.terms ++ more)) }
{
    let base = "file:///";
    if !is_absolute(base) {
        return Err(RowFault::Unread);
    }
    let base = iri_text(alloc, base)?;
    let text = format!(in alloc; "{PREFIXES}{text}")?;
    let limits = Limits::program();
    match read_document(alloc, text.as_bytes(), &base, scope, &limits, pool) {
        Ok(document) => Ok(document),
        Err(TtlFault::At { .. }) => Err(RowFault::Unread),
        Err(TtlFault::Memory) => Err(RowFault::Memory),
    }
}

fn state(graph: &mut ListGraph, t: Triple) -> Result<(), RowFault>
    ensures { graph.new.pool.terms ≡ graph.old.pool.terms }
{
    if !is_known_triple(graph, &t) || graph.insert(t).is_err() {
        return Err(RowFault::Unread);
    }
    Ok(())
}

// The graph of a document, which may hold so many triples.
fn graph_of(
    alloc: Global,
    pool: Pool,
    document: &Document,
    triples: u64,
) -> Result<ListGraph, RowFault>
    ensures { IfOk result (λ graph. graph.pool.terms ≡ pool.terms) }
{
    let mut graph = ListGraph::new(alloc, pool, triples);
    for t in &document.triples {
        state(&mut graph, *t)?;
    }
    Ok(graph)
}

// The plan of a graph of shapes.
fn compiled(alloc: Global, graph: &ListGraph) -> Result<Plan, RowFault>
    ensures fits { IfOk result (λ plan. IsPlan graph.now.pool.terms (plan_of plan).shapes) }
    ensures plan { IfOk result (λ plan. plan_of plan ≡ planned graph.now.pool.terms (plan_of plan).shapes) }
{
    let limits = Limits::program();
    let decls = match check_shapes(alloc, graph, &limits) {
        Ok(decls) => decls,
        Err(CheckFault::Shape(_)) => return Err(RowFault::Unread),
        Err(CheckFault::Memory) => return Err(RowFault::Memory),
    };
    let mut host = RegexHost::new();
    match compile(alloc, &decls, graph.pool(), &limits, &mut host) {
        Ok(plan) => Ok(plan),
        Err(CompileFault::Memory) => Err(RowFault::Memory),
        Err(_) => Err(RowFault::Unread),
    }
}

/// The plan of a shapes text, and the pool that it was read into.
#[derive(Drop)]
struct Shapes {
    plan: Plan,
    pool: Pool,
}

// The terms of the pool stay.
fn shapes_of(alloc: Global, text: &str, pool: Pool) -> Result<Shapes, RowFault>
    ensures fits { IfOk result (λ shapes. IsPlan shapes.pool.terms (plan_of shapes.plan).shapes) }
    ensures plan { IfOk result
        (λ shapes. plan_of shapes.plan ≡ planned shapes.pool.terms (plan_of shapes.plan).shapes) }
    ensures terms { IfOk result (λ shapes.
        (more : List Term) × (shapes.pool.terms ≡ pool.terms ++ more)) }
{
    let Stated { graph, document: _ } = state_text(alloc, text, Scope::Shapes, pool, 1_000)?;
    let plan = compiled(alloc, &graph)?;
    Ok(Shapes {
        plan,
        pool: graph.into_pool(),
    })
}

/// The graph of a text, and the text, behind which lines are read.
#[derive(Drop)]
pub(super) struct Stated {
    pub(super) graph: ListGraph,
    pub(super) document: Document,
}

// The graph may hold so many triples. The terms of the pool stay.
fn state_text(
    alloc: Global,
    text: &str,
    scope: Scope,
    mut pool: Pool,
    triples: u64,
) -> Result<Stated, RowFault>
    ensures { IfOk result (λ stated.
        (more : List Term) × (stated.graph.pool.terms ≡ pool.terms ++ more)) }
{
    let document = read(alloc, text, scope, &mut pool)?;
    let graph = graph_of(alloc, pool, &document, triples)?;
    Ok(Stated { graph, document })
}

// The valid graph of a data text, in which the terms of the pool stay.
fn data_of(alloc: Global, text: &str, pool: Pool) -> Result<Stated, RowFault>
    ensures valid { IfOk result (λ read. IsValidView (plain_graph read.graph)) }
    ensures terms { IfOk result (λ read.
        (more : List Term) × (read.graph.pool.terms ≡ pool.terms ++ more)) }
{
    let data = state_text(alloc, text, Scope::Data, pool, TRIPLES)?;
    if is_valid(&data.graph) {
        Ok(data)
    } else {
        Err(RowFault::Unread)
    }
}

/// The plan of a shapes text, and that of another one that may take its place.
#[derive(Drop)]
pub(super) struct Plans {
    pub(super) old: Plan,
    pub(super) new: Plan,
}

/// Texts of shapes, of those that may take their place, and of data.
#[derive(Clone, Copy)]
pub(super) struct Texts<'a> {
    pub(super) old: &'a str,
    pub(super) new: &'a str,
    pub(super) data: &'a str,
}

/// What texts state, over one pool.
pub(super) fn open_both(alloc: Global, texts: &Texts) -> Result<(Plans, Stated), RowFault>
    ensures { IfOk result (λ opened. MayBeAsked (plan_of opened.0.old) (plain_graph opened.1.graph)
        × MayBeAsked (plan_of opened.0.new) (plain_graph opened.1.graph)) }
{
    plans_target_shapes_once();
    plans_stay_known();
    let old = shapes_of(alloc, texts.old, vocabulary_pool(alloc, 1_000)?)?;
    let new = shapes_of(alloc, texts.new, old.pool)?;
    let read = data_of(alloc, texts.data, new.pool)?;
    let plans = Plans {
        old: old.plan,
        new: new.plan,
    };
    Ok((plans, read))
}
