//! What a graph states of a shape.
ghost use Rattle.std.specs.Prelude.{◌≡◌, ◌++◌, map, IfOk, OnOk};
ghost use Rattle.std.specs.Option.{option_map};
ghost use Rattle.graph_view.specs.Graph.{objects_of, triples_of};
ghost use Rattle.shape_decl.specs.PathReadings.{told_reading};
ghost use Rattle.shape_decl.specs.Declarations.{declaration_of, told_decl, told_values, told_list};
ghost use Rattle.shape_decl.specs.Declarations.{list_reading, lists_of, path_of, unless_empty, values_of};
ghost use Rattle.shape_decl.specs.inner.Kept.{AreReadingsOf, IsKnownOf};

use crate::knowing::known_path;
use crate::lists::known_list;
use crate::readings::{KnownGraph, ReadLists};
use crate::tables::list_predicates;
use crate::{Declared, ListValue, PathReading, ShapeDecl};
use graph_view::{GraphView, Key, Reads, objects_among};
use shx_term::vocabulary::{SH_PATH, VOCABULARY_LEN};
use shx_term::{Id, Limits, Memory, Triple};
use std::alloc::Global;

/// What a graph states of a node. It asks the graph once for the triples of the node, and goes over them once
/// for each predicate of the vocabulary.
pub(crate) fn declare<V: GraphView>(
    alloc: Global,
    graph: &V,
    limits: &Limits,
    node: Id,
    known: &mut KnownGraph,
) -> Result<ShapeDecl, Memory>
    requires { IsKnownOf limits.now (V.graph graph.now) known.old }
    ensures declared { IfOk result (λ decl.
        told_decl decl ≡ declaration_of limits.now (V.graph graph.now) node) }
    ensures known { OnOk result (IsKnownOf limits.now (V.graph graph.now) known.new) }
{
    let triples = graph.triples_of(alloc, node, &mut Reads::new(alloc))?;
    Ok(ShapeDecl {
        node,
        is_node_shape: known.node_shapes.contains(&node),
        is_class: known.classes.contains(&node),
        values: declared_values(alloc, graph, node, &triples)?,
        lists: declared_lists(alloc, graph, node, &triples, &mut known.readings)?,
        path: declared_path(alloc, graph, node, &triples, limits, known)?,
    })
}

// The values of a predicate at a node, found among the triples of the node.
fn values_among<V: GraphView>(
    alloc: Global,
    graph: &V,
    node: Id,
    triples: &[Triple],
    p: Id,
) -> Result<Vec<Id>, Memory>
    requires { triples.now ≡ triples_of (V.graph graph.now) node }
    ensures { IfOk result (λ found. found.items ≡ objects_of (V.graph graph.now) node p) }
{
    let found = objects_among(alloc, triples, &Key::Out(node, p))?;
    Ok(graph.pool().in_order(found))
}

fn declared_values<V: GraphView>(
    alloc: Global,
    graph: &V,
    node: Id,
    triples: &[Triple],
) -> Result<Vec<Declared>, Memory>
    requires { triples.now ≡ triples_of (V.graph graph.now) node }
    ensures { IfOk result (λ found. map told_values found.items ≡ values_of (V.graph graph.now) node) }
{
    let mut found = Vec::new(alloc);
    for predicate in 0..VOCABULARY_LEN {
        let values = values_among(alloc, graph, node, triples, predicate)?;
        add_values(predicate, values, &mut found)?;
    }
    Ok(found)
}

fn add_values(predicate: Id, values: Vec<Id>, found: &mut Vec<Declared>) -> Result<(), Memory>
    ensures { OnOk result (map told_values found.new.items
        ≡ map told_values found.old.items ++ unless_empty predicate values.items) }
{
    if !values.is_empty() {
        found.push(Declared { predicate, values })?;
    }
    Ok(())
}

#[tactic(auto, unfolding(crate::specs::Declarations::lists_of))]
fn declared_lists<V: GraphView>(
    alloc: Global,
    graph: &V,
    node: Id,
    triples: &[Triple],
    readings: &mut ReadLists,
) -> Result<Vec<ListValue>, Memory>
    requires triples { triples.now ≡ triples_of (V.graph graph.now) node }
    requires known { AreReadingsOf (V.graph graph.now) readings.old }
    ensures lists { IfOk result (λ found. map told_list found.items ≡ lists_of (V.graph graph.now) node) }
    ensures known { OnOk result (AreReadingsOf (V.graph graph.now) readings.new) }
{
    let mut found = Vec::new(alloc);
    for p in list_predicates() {
        let heads = values_among(alloc, graph, node, triples, *p)?;
        add_lists(alloc, graph, &heads, readings, &mut found)?;
    }
    Ok(found)
}

fn add_lists<V: GraphView>(
    alloc: Global,
    graph: &V,
    heads: &[Id],
    readings: &mut ReadLists,
    found: &mut Vec<ListValue>,
) -> Result<(), Memory>
    requires { AreReadingsOf (V.graph graph.now) readings.old }
    ensures lists { OnOk result (map told_list found.new.items
        ≡ map told_list found.old.items ++ map (list_reading (V.graph graph.now)) heads.now) }
    ensures known { OnOk result (AreReadingsOf (V.graph graph.now) readings.new) }
{
    for head in heads {
        let members = known_list(alloc, graph, *head, readings)?;
        found.push(ListValue {
            head: *head,
            members,
        })?;
    }
    Ok(())
}

#[tactic(auto, unfolding(crate::specs::Declarations::path_of))]
fn declared_path<V: GraphView>(
    alloc: Global,
    graph: &V,
    node: Id,
    triples: &[Triple],
    limits: &Limits,
    known: &mut KnownGraph,
) -> Result<Option<PathReading>, Memory>
    requires triples { triples.now ≡ triples_of (V.graph graph.now) node }
    requires known { IsKnownOf limits.now (V.graph graph.now) known.old }
    ensures path { IfOk result (λ path.
        option_map told_reading path ≡ path_of limits.now (V.graph graph.now) node) }
    ensures known { OnOk result (IsKnownOf limits.now (V.graph graph.now) known.new) }
{
    let heads = values_among(alloc, graph, node, triples, SH_PATH)?;
    match heads.first() {
        None => Ok(None),
        Some(head) => Ok(Some(known_path(alloc, graph, limits, *head, known)?)),
    }
}
