//! SHACL lists.
ghost use Rattle.std.specs.Prelude.{◌≡◌, IfOk, OnOk};
ghost use Rattle.std.specs.Option.{option_map};
ghost use Rattle.shape_decl.specs.Lists.{cell_of, cell_at, list_of};
ghost use Rattle.shape_decl.specs.inner.Kept.{AreReadingsOf};

use crate::Cell;
use crate::knowing::no_readings;
use crate::readings::ReadLists;
use graph_view::{GraphView, Reads};
use id_list::IdList;
use indexmap::IndexSet;
use shx_term::vocabulary::{RDF_FIRST, RDF_NIL, RDF_REST};
use shx_term::{Id, Memory};
use std::alloc::Global;

/// The members of a SHACL list (SHACL, section 1.1), or `None` where the head is none: a cell with two rests,
/// or a cycle, makes no list. It takes time linear in the list, and no recursion.
pub fn read_list<V: GraphView>(alloc: Global, graph: &V, head: Id) -> Result<Option<IdList>, Memory>
    ensures { IfOk result (λ found. found ≡ list_of (V.graph graph.now) head) }
{
    known_list(alloc, graph, head, &mut no_readings(alloc))
}

/// The same, shared with whoever asks for it again.
pub(crate) fn known_list<V: GraphView>(
    alloc: Global,
    graph: &V,
    head: Id,
    readings: &mut ReadLists,
) -> Result<Option<IdList>, Memory>
    requires { AreReadingsOf (V.graph graph.now) readings.old }
    ensures list { IfOk result (λ found. found ≡ list_of (V.graph graph.now) head) }
    ensures known { OnOk result (AreReadingsOf (V.graph graph.now) readings.new) }
{
    if let Some(list) = readings.lists.get(&head) {
        return copied(list);
    }
    let list = shared(alloc, followed(alloc, graph, head, readings)?)?;
    let copy = copied(&list)?;
    readings.lists.insert(head, list)?;
    Ok(copy)
}

fn shared(alloc: Global, list: Option<Vec<Id>>) -> Result<Option<IdList>, Memory>
    ensures { IfOk result (λ shared. shared ≡ option_map (λ members. members.items) list) }
{
    match list {
        Some(members) => Ok(Some(IdList::new(alloc, members)?)),
        None => Ok(None),
    }
}

fn copied(list: &Option<IdList>) -> Result<Option<IdList>, Memory>
    ensures { IfOk result (λ copy. copy ≡ list.now) }
{
    match list {
        Some(members) => Ok(Some(members.copy()?)),
        None => Ok(None),
    }
}

/// The same, with no list kept: from cell to cell, up to the end or a node that was passed before.
pub(crate) fn followed<V: GraphView>(
    alloc: Global,
    graph: &V,
    head: Id,
    readings: &mut ReadLists,
) -> Result<Option<Vec<Id>>, Memory>
    requires { AreReadingsOf (V.graph graph.now) readings.old }
    ensures list { IfOk result (λ found.
        option_map (λ members. members.items) found ≡ list_of (V.graph graph.now) head) }
    ensures known { AreReadingsOf (V.graph graph.now) readings.new }
{
    let mut seen = IndexSet::new(alloc);
    let mut members = Vec::new(alloc);
    let mut at = head;
    'cells: loop {
        match known_cell(alloc, graph, at, readings)? {
            Cell::End => return Ok(Some(members)),
            Cell::Link(first, rest) => {
                if !seen.insert(at)? {
                    return Ok(None);
                }
                members.push(first)?;
                at = rest;
            }
            Cell::Neither => return Ok(None),
        }
    }
}

// What a node is in a list. A node is asked for once.
fn known_cell<V: GraphView>(
    alloc: Global,
    graph: &V,
    node: Id,
    readings: &mut ReadLists,
) -> Result<Cell, Memory>
    requires { AreReadingsOf (V.graph graph.now) readings.old }
    ensures cell { IfOk result (λ cell. cell ≡ cell_at (V.graph graph.now) node) }
    ensures known { AreReadingsOf (V.graph graph.now) readings.new }
{
    if let Some(cell) = readings.cells.get(&node) {
        return Ok(*cell);
    }
    let cell = read_cell(alloc, graph, node)?;
    readings.cells.insert(node, cell)?;
    Ok(cell)
}

fn read_cell<V: GraphView>(alloc: Global, graph: &V, node: Id) -> Result<Cell, Memory>
    ensures { IfOk result (λ cell. cell ≡ cell_at (V.graph graph.now) node) }
{
    let mut reads = Reads::new(alloc);
    let firsts = graph.objects(alloc, node, RDF_FIRST, &mut reads)?;
    let rests = graph.objects(alloc, node, RDF_REST, &mut reads)?;
    Ok(cell_among(node == RDF_NIL, &firsts, &rests))
}

// What the objects of rdf:first and rdf:rest make of a node.
fn cell_among(is_nil: bool, firsts: &[Id], rests: &[Id]) -> Cell
    ensures { result ≡ cell_of is_nil firsts.now rests.now }
{
    match (firsts, rests) {
        ([], []) if is_nil => Cell::End,
        ([first], [rest]) => Cell::Link(*first, *rest),
        _ => Cell::Neither,
    }
}
