//! Graphs, made of texts, and limits.
ghost use Rattle.std.specs.Prelude.{◌≤◌, IfOk};

use super::names::local_name;
use graph_view::{GraphEdit, GraphView, ListGraph, StoreFault};
use row_tools::{RowFault, cut, in_three, iri, labelled, term, vocabulary_pool};
use shx_term::vocabulary::vocabulary_rows;
use shx_term::{Id, Limits, Scope, Term, Triple};
use std::alloc::Global;

// The number of a term of the vocabulary by its local name.
fn local_number(name: &str) -> Option<Id> {
    for (id, iri) in vocabulary_rows() {
        if local_name(iri) == name {
            return Some(*id);
        }
    }
    None
}

fn term_of(alloc: Global, name: &str) -> Result<Term, RowFault> {
    if let Some(label) = name.strip_prefix('_') {
        return Ok(labelled(alloc, Scope::Shapes, label)?);
    }
    if name.len() != 1 {
        return term(alloc, name);
    }
    Ok(iri(alloc, name)?)
}

/// The number of a term by its name: `_a` is a blank node, `'a'` and `'1'^^integer` are literals, `nil` and
/// other local names are of the vocabulary, and a letter alone is an IRI.
pub(super) fn number(alloc: Global, graph: &mut ListGraph, name: &str) -> Result<Id, RowFault> {
    match local_number(name) {
        Some(id) => Ok(id),
        None => Ok(graph.enter(&term_of(alloc, name)?)?),
    }
}

fn insert(graph: &mut ListGraph, t: Triple) -> Result<(), RowFault> {
    let terms = graph.pool().len();
    if t.s >= terms || t.p >= terms || t.o >= terms {
        return Err(RowFault::Unread);
    }
    match graph.insert(t) {
        Ok(_) => Ok(()),
        Err(StoreFault::TooMany) => Err(RowFault::Unread),
        Err(StoreFault::Memory) => Err(RowFault::Memory),
    }
}

fn state(alloc: Global, graph: &mut ListGraph, s: &str, p: &str, o: &str) -> Result<(), RowFault> {
    let s = number(alloc, graph, s)?;
    let p = number(alloc, graph, p)?;
    let o = number(alloc, graph, o)?;
    insert(graph, Triple { s, p, o })
}

// A statement of a subject, a predicate and an object; `_a cell x _b` states both rdf:first and rdf:rest.
fn state_one(alloc: Global, graph: &mut ListGraph, statement: &str) -> Result<(), RowFault> {
    let (subject, predicate, object) = in_three(statement, " ")?;
    if predicate != "cell" {
        return state(alloc, graph, subject, predicate, object);
    }
    let (first, rest) = cut(object, " ")?;
    state(alloc, graph, subject, "first", first)?;
    state(alloc, graph, subject, "rest", rest)
}

fn state_all(alloc: Global, graph: &mut ListGraph, text: &str) -> Result<(), RowFault> {
    if text != "-" {
        for statement in text.split(", ") {
            state_one(alloc, graph, statement)?;
        }
    }
    Ok(())
}

/// The graph of a text of statements with commas between them; `-` stands for none.
pub(super) fn graph(alloc: Global, text: &str) -> Result<ListGraph, RowFault> {
    let mut graph = ListGraph::new(alloc, vocabulary_pool(alloc, 100)?, 100);
    match state_all(alloc, &mut graph, text) {
        Ok(()) => Ok(graph),
        Err(fault) => Err(fault),
    }
}

/// The limits of the program, but for those on shapes, and on the depth and the parts of a path: `1 64 4096`.
pub(super) fn limits_of(numbers: &str) -> Result<Limits, RowFault>
    ensures { IfOk result (λ limits. limits.path_depth ≤ 64) }
{
    let (shapes, depth, parts) = in_three(numbers, " ")?;
    let mut limits = Limits::program();
    limits.shapes = row_tools::number(shapes)?;
    limits.path_depth = row_tools::number(depth)?;
    limits.path_parts = row_tools::number(parts)?;
    if limits.path_depth > 64 {
        return Err(RowFault::Unread);
    }
    Ok(limits)
}
