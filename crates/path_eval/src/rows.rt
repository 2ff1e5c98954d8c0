//! Edges by the places that they begin at.
ghost use Rattle.std.specs.Prelude.{◌≡◌, IfOk, OnOk};
ghost use Rattle.path_eval.specs.inner.Rows.{DoesAll, Enters, IsByPlace};

use crate::edge::Edge;
use shx_term::Memory;
use std::alloc::Global;

/// The edges of each place.
pub(crate) fn by_place(alloc: Global, edges: &[Edge], places: u32) -> Result<Vec<Vec<Edge>>, Memory>
    ensures { IfOk result (λ rows. IsByPlace rows.items edges.now) }
{
    let mut rows: Vec<Vec<Edge>> = Vec::new(alloc);
    for _place in 0..places {
        rows.push(Vec::new(alloc))?;
    }
    for edge in edges {
        enter(&mut rows, *edge)?;
    }
    Ok(rows)
}

// Adds an edge to the row of its place, if there is one.
fn enter(rows: &mut Vec<Vec<Edge>>, edge: Edge) -> Result<(), Memory>
    ensures { OnOk result (Enters edge rows.old.items rows.new.items) }
{
    let place = edge.from as usize;
    if place >= rows.len() {
        return Ok(());
    }
    rows[place].push(edge)?;
    Ok(())
}

/// The edges from a place; where there is no row for it, all edges.
pub(crate) fn edges_at<'a>(rows: &'a [Vec<Edge>], edges: &'a [Edge], place: u32) -> &'a [Edge]
    requires { IsByPlace rows.now edges.now }
    ensures { DoesAll result.now edges.now place }
{
    match rows.get(place as usize) {
        Some(row) => row.as_slice(),
        None => edges,
    }
}
