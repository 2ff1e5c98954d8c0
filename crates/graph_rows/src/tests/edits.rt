pub(super) mod rows;

use super::letters::graph_of;
use super::questions::is_same;
use super::steps::goes_on;
use graph_view::{GraphEdit, GraphView, Lent, ListGraph};
use row_tools::{RowFault, all_blocks_met, cut, number};
use std::alloc::Global;
use std::test::Fail;
use triple_store::Store;

// The graph that a block begins with.
fn graph_of_block(alloc: Global, line: &str) -> Result<ListGraph, RowFault> {
    let (sizes, words) = cut(line, ":")?;
    let (terms, limit) = cut(sizes, " ")?;
    graph_of(alloc, number(terms)?, u64::from(number(limit)?), words)
}

fn store_of_block(alloc: Global, line: &str) -> Result<Store, RowFault> {
    Ok(Store::from_list(alloc, graph_of_block(alloc, line)?)?)
}

// Whether the pool and the triples of a graph, lent, are the same graph.
fn is_lent_as_it_is(alloc: Global, graph: &ListGraph) -> Result<bool, RowFault> {
    let pool = graph.pool();
    let _ = graph.len();
    let lent = Lent::new(pool, graph.triples());
    Ok(is_same(alloc, &lent, graph)?)
}

// Whether a plain graph goes through some steps as is due, and is the same graph when it is lent.
fn goes_lent(alloc: Global, graph: &mut ListGraph, steps: &str) -> Result<bool, RowFault> {
    for step in steps.lines() {
        if !goes_on(alloc, graph, step)? || !is_lent_as_it_is(alloc, graph)? {
            return Ok(false);
        }
    }
    Ok(true)
}

// Whether a store goes through some steps as is due.
fn goes_stored(alloc: Global, store: &mut Store, steps: &str) -> Result<bool, RowFault> {
    for step in steps.lines() {
        if !goes_on(alloc, store, step)? {
            return Ok(false);
        }
    }
    Ok(true)
}

// The store that is filled from the plain graph of a block once that has gone through the steps.
fn filled_behind(alloc: Global, line: &str, steps: &str) -> Result<Store, RowFault> {
    let mut graph = graph_of_block(alloc, line)?;
    if goes_lent(alloc, &mut graph, steps)? {
        Ok(Store::from_list(alloc, graph)?)
    } else {
        Err(RowFault::Unread)
    }
}

fn are_alike(alloc: Global, filled: &Store, store: &Store) -> Result<bool, RowFault> {
    Ok(filled.limit() == store.limit() && is_same(alloc, filled, store)?)
}

fn ends_as_filled(alloc: Global, store: &Store, line: &str, steps: &str) -> Result<bool, RowFault> {
    let filled = filled_behind(alloc, line, steps)?;
    are_alike(alloc, &filled, store)
}

// Whether the store of a block goes through the steps as is due, and ends as one that is filled anew from the
// plain graph, which goes through them too.
fn go_as_said(alloc: Global, block: &str) -> Result<bool, RowFault> {
    let (line, steps) = cut(block, "\n")?;
    let mut store = store_of_block(alloc, line)?;
    Ok(goes_stored(alloc, &mut store, steps)? && ends_as_filled(alloc, &store, line, steps)?)
}

#[test]
fn graphs_and_stores_go_through_edits(rt: HostRuntime) -> Result<(), Fail> {
    all_blocks_met(rt.alloc(), rows::EDITS, go_as_said)
}
