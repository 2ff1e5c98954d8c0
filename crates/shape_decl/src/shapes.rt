//! Which nodes are shapes (SHACL, section 2).
ghost use Rattle.std.specs.Prelude.{◌≡◌, ◌++◌, map, flat_map, filter, IfOk, OnOk};
ghost use Rattle.shx_term.specs.declared.triple.Triple.{Triple};
ghost use Rattle.graph_view.specs.Graph.{triples_with};
ghost use Rattle.path_eval.specs.declared.direction.Direction.{Direction};
ghost use Rattle.path_eval.specs.Instances.{instance_route};
ghost use Rattle.path_eval.specs.Values.{nodes_reached};
ghost use Rattle.shx_term.specs.TermKinds.{is_node};
ghost use Rattle.shape_decl.specs.Shapes.{objects_with, shape_nodes, subjects_with};
ghost use Rattle.shape_decl.specs.inner.Gathered.{gathered, members_at};
ghost use Rattle.shape_decl.specs.inner.Kept.{AreReadingsOf};

use crate::knowing::no_readings;
use crate::lists::followed;
use crate::readings::ReadLists;
use crate::tables::{shape_classes, shape_list_predicates, shape_predicates, subject_predicates};
use graph_view::{GraphView, Reads};
use path_eval::instances;
use shx_term::{Id, Memory, Pool, Term, Triple};
use std::alloc::Global;

/// The shapes of a graph in term order, each once (SHACL, section 2). It asks the graph by predicate, and
/// follows the path of instances back from the two classes of shapes.
pub fn find_shapes<V: GraphView>(alloc: Global, graph: &V) -> Result<Vec<Id>, Memory>
    ensures { IfOk result (λ nodes. nodes.items ≡ shape_nodes (V.graph graph.now)) }
{
    let mut found = gather(alloc, graph)?;
    keep_nodes(graph.pool(), &mut found);
    Ok(graph.pool().in_order(found))
}

// All that may be a shape, literals among them, with repeats. Heads of lists are taken once each.
fn gather<V: GraphView>(alloc: Global, graph: &V) -> Result<Vec<Id>, Memory>
    ensures { IfOk result (λ found. found.items ≡ gathered (V.graph graph.now)) }
{
    let mut heads = Vec::new(alloc);
    gather_objects(alloc, graph, shape_list_predicates(), &mut heads)?;
    let heads = graph.pool().in_order(heads);
    let mut found = Vec::new(alloc);
    gather_instances(alloc, graph, shape_classes(), &mut found)?;
    gather_subjects(alloc, graph, subject_predicates(), &mut found)?;
    gather_objects(alloc, graph, shape_predicates(), &mut found)?;
    gather_members(alloc, graph, &heads, &mut no_readings(alloc), &mut found)?;
    Ok(found)
}

fn gather_instances<V: GraphView>(
    alloc: Global,
    graph: &V,
    classes: &[Id],
    found: &mut Vec<Id>,
) -> Result<(), Memory>
    ensures { OnOk result (found.new.items ≡ found.old.items
        ++ flat_map (nodes_reached (V.graph graph.now) Direction.Backward instance_route) classes.now) }
{
    for class in classes {
        let nodes = instances(alloc, graph, *class, &mut Reads::new(alloc))?;
        found.extend_from_slice(&nodes)?;
    }
    Ok(())
}

fn gather_subjects<V: GraphView>(
    alloc: Global,
    graph: &V,
    predicates: &[Id],
    found: &mut Vec<Id>,
) -> Result<(), Memory>
    ensures { OnOk result (found.new.items
        ≡ found.old.items ++ flat_map (subjects_with (V.graph graph.now)) predicates.now) }
{
    for p in predicates {
        let triples = graph.triples_with(alloc, *p, &mut Reads::new(alloc))?;
        add_subjects(&triples, found)?;
    }
    Ok(())
}

fn add_subjects(triples: &[Triple], found: &mut Vec<Id>) -> Result<(), Memory>
    ensures { OnOk result (found.new.items ≡ found.old.items ++ map (λ t. t.s) triples.now) }
{
    for t in triples {
        found.push(t.s)?;
    }
    Ok(())
}

fn gather_objects<V: GraphView>(
    alloc: Global,
    graph: &V,
    predicates: &[Id],
    found: &mut Vec<Id>,
) -> Result<(), Memory>
    ensures { OnOk result (found.new.items
        ≡ found.old.items ++ flat_map (objects_with (V.graph graph.now)) predicates.now) }
{
    for p in predicates {
        let triples = graph.triples_with(alloc, *p, &mut Reads::new(alloc))?;
        add_objects(&triples, found)?;
    }
    Ok(())
}

fn add_objects(triples: &[Triple], found: &mut Vec<Id>) -> Result<(), Memory>
    ensures { OnOk result (found.new.items ≡ found.old.items ++ map (λ t. t.o) triples.now) }
{
    for t in triples {
        found.push(t.o)?;
    }
    Ok(())
}

// The members of lists, one list after the other.
fn gather_members<V: GraphView>(
    alloc: Global,
    graph: &V,
    heads: &[Id],
    readings: &mut ReadLists,
    found: &mut Vec<Id>,
) -> Result<(), Memory>
    requires { AreReadingsOf (V.graph graph.now) readings.old }
    ensures { OnOk result (found.new.items
        ≡ found.old.items ++ flat_map (members_at (V.graph graph.now)) heads.now) }
{
    for head in heads {
        add_members(alloc, graph, *head, readings, found)?;
    }
    Ok(())
}

// A node that is no list has no members.
fn add_members<V: GraphView>(
    alloc: Global,
    graph: &V,
    head: Id,
    readings: &mut ReadLists,
    found: &mut Vec<Id>,
) -> Result<(), Memory>
    requires { AreReadingsOf (V.graph graph.now) readings.old }
    ensures known { AreReadingsOf (V.graph graph.now) readings.new }
    ensures added { OnOk result (found.new.items
        ≡ found.old.items ++ members_at (V.graph graph.now) head) }
{
    if let Some(members) = followed(alloc, graph, head, readings)? {
        found.extend_from_slice(&members)?;
    }
    Ok(())
}

fn keep_nodes(pool: &Pool, found: &mut Vec<Id>)
    ensures { found.new.items ≡ filter (is_node pool.now.terms) found.old.items }
{
    found.retain(|n| pool.is_iri_or_blank(*n));
}
