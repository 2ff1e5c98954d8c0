//! The forms of a path, read at one node.
ghost use Rattle.std.specs.Prelude.{◌≡◌, IfOk};
ghost use Rattle.graph_view.specs.Graph.{triples_of};
ghost use Rattle.shape_decl.specs.Lists.{list_of};
ghost use Rattle.shape_decl.specs.PathForms.{Alternative, Formless, Sequence, several};
ghost use Rattle.shape_decl.specs.PathForms.{form_by_triple, form_by_triples, form_of};
ghost use Rattle.shape_decl.specs.inner.Kept.{AreReadingsOf};
ghost use Rattle.shape_decl.specs.inner.ToldForm.{told_form};

use crate::form::Form;
use crate::lists::followed;
use crate::readings::ReadLists;
use graph_view::{GraphView, Reads};
use shx_term::vocabulary::{
    SH_ALTERNATIVE_PATH, SH_INVERSE_PATH, SH_ONE_OR_MORE_PATH, SH_ZERO_OR_MORE_PATH,
    SH_ZERO_OR_ONE_PATH,
};
use shx_term::{Id, Memory, Term, Triple};
use std::alloc::Global;

/// The form that a node has, whatever the nodes inside it are.
#[tactic(auto, unfolding(crate::specs::PathForms::form_of))]
pub(crate) fn read_form<V: GraphView>(
    alloc: Global,
    graph: &V,
    node: Id,
    readings: &mut ReadLists,
) -> Result<Form, Memory>
    requires { AreReadingsOf (V.graph graph.now) readings.old }
    ensures known { AreReadingsOf (V.graph graph.now) readings.new }
    ensures form { IfOk result (λ form. told_form form ≡ form_of (V.graph graph.now) node) }
{
    let pool = graph.pool();
    if node >= pool.len() {
        return Ok(Form::Formless);
    }
    match pool.term(node) {
        Term::Iri(_) => Ok(Form::Predicate),
        Term::Blank(_) => Ok(blank_form(alloc, graph, node, readings)?),
        Term::Lit(_) => Ok(Form::Formless),
    }
}

// The form of a blank node: a list of at least two members is a sequence, before its triple is looked at.
fn blank_form<V: GraphView>(
    alloc: Global,
    graph: &V,
    node: Id,
    readings: &mut ReadLists,
) -> Result<Form, Memory>
    requires { AreReadingsOf (V.graph graph.now) readings.old }
    ensures known { AreReadingsOf (V.graph graph.now) readings.new }
    ensures form { IfOk result (λ form. told_form form
        ≡ several Sequence (list_of (V.graph graph.now) node)
        (form_by_triples (V.graph graph.now) (triples_of (V.graph graph.now) node))) }
{
    match followed(alloc, graph, node, readings)? {
        Some(parts) if parts.len() >= 2 => Ok(Form::Sequence(parts)),
        _ => Ok(constructed_form(alloc, graph, node, readings)?),
    }
}

// The form of a blank node by its only triple.
fn constructed_form<V: GraphView>(
    alloc: Global,
    graph: &V,
    node: Id,
    readings: &mut ReadLists,
) -> Result<Form, Memory>
    requires { AreReadingsOf (V.graph graph.now) readings.old }
    ensures known { AreReadingsOf (V.graph graph.now) readings.new }
    ensures form { IfOk result (λ form. told_form form
        ≡ form_by_triples (V.graph graph.now) (triples_of (V.graph graph.now) node)) }
{
    let mut reads = Reads::new(alloc);
    let triples = graph.triples_of(alloc, node, &mut reads)?;
    match triples.as_slice() {
        [t] => Ok(triple_form(alloc, graph, t, readings)?),
        _ => Ok(Form::Formless),
    }
}

fn triple_form<V: GraphView>(
    alloc: Global,
    graph: &V,
    t: &Triple,
    readings: &mut ReadLists,
) -> Result<Form, Memory>
    requires { AreReadingsOf (V.graph graph.now) readings.old }
    ensures known { AreReadingsOf (V.graph graph.now) readings.new }
    ensures form { IfOk result (λ form. told_form form ≡ form_by_triple (V.graph graph.now) t.now) }
{
    match t.p {
        SH_INVERSE_PATH => Ok(Form::Inverse(t.o)),
        SH_ALTERNATIVE_PATH => Ok(alternative_form(alloc, graph, t.o, readings)?),
        SH_ZERO_OR_MORE_PATH => Ok(Form::ZeroOrMore(t.o)),
        SH_ONE_OR_MORE_PATH => Ok(Form::OneOrMore(t.o)),
        SH_ZERO_OR_ONE_PATH => Ok(Form::ZeroOrOne(t.o)),
        _ => Ok(Form::Formless),
    }
}

fn alternative_form<V: GraphView>(
    alloc: Global,
    graph: &V,
    head: Id,
    readings: &mut ReadLists,
) -> Result<Form, Memory>
    requires { AreReadingsOf (V.graph graph.now) readings.old }
    ensures known { AreReadingsOf (V.graph graph.now) readings.new }
    ensures form { IfOk result (λ form. told_form form
        ≡ several Alternative (list_of (V.graph graph.now) head) Formless) }
{
    match followed(alloc, graph, head, readings)? {
        Some(members) if members.len() >= 2 => Ok(Form::Alternative(members)),
        _ => Ok(Form::Formless),
    }
}
