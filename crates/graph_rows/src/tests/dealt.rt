//! Stores that are made of triples at once: of few for their terms, and of so many that they are dealt.
use super::ending::Ending;
use super::letters::{LETTERS_END, graph_of};
use super::questions::is_same;
use super::steps::{are_known, inserted};
use graph_view::{GraphEdit, GraphView, ListGraph};
use row_tools::{RowFault, all_met, number};
use shx_term::Triple;
use shx_term::vocabulary::VOCABULARY_LEN;
use std::alloc::Global;
use std::test::Fail;
use triple_store::Store;

const LIMIT: u64 = 1_000;

// Another triple over the letters for each number below the cube of thirteen, in no order.
fn triple_at(number: u32) -> Triple {
    let mixed = number % 2_197 * 1_201 % 2_197;
    Triple {
        s: VOCABULARY_LEN + mixed / 169,
        p: VOCABULARY_LEN + mixed / 13 % 13,
        o: VOCABULARY_LEN + mixed % 13,
    }
}

// The triples of the numbers below this one, every other one twice.
fn triples_below(alloc: Global, many: u32) -> Result<Vec<Triple>, RowFault> {
    let mut triples = Vec::new(alloc);
    for number in 0..many {
        triples.push(triple_at(number))?;
        if number % 2 == 0 {
            triples.push(triple_at(number))?;
        }
    }
    Ok(triples)
}

fn graph_below(alloc: Global, many: u32) -> Result<ListGraph, RowFault> {
    let mut graph = graph_of(alloc, LETTERS_END, LIMIT, "")?;
    for number in 0..many {
        if inserted(&mut graph, triple_at(number))? != Ending::New {
            return Err(RowFault::Unread);
        }
    }
    Ok(graph)
}

// The store of triples over the terms of a graph.
fn store_over(alloc: Global, graph: ListGraph, triples: Vec<Triple>) -> Result<Store, RowFault> {
    if are_known(&graph, &triples) {
        if triples.len() as u64 <= LIMIT {
            return Ok(Store::from_triples(alloc, graph.into_pool(), triples, LIMIT)?);
        }
    }
    Err(RowFault::Unread)
}

// The store of so many triples, of which some are given twice.
fn store_below(alloc: Global, many: u32) -> Result<Store, RowFault> {
    let triples = triples_below(alloc, many)?;
    store_over(alloc, graph_of(alloc, LETTERS_END, LIMIT, "")?, triples)
}

fn is_store_of(alloc: Global, many: u32, plain: &ListGraph) -> Result<bool, RowFault> {
    let store = store_below(alloc, many)?;
    Ok(is_same(alloc, &store, plain)?)
}

// Whether a store that is made at once is the same as a plain graph.
fn is_same_as_plain(alloc: Global, row: &str) -> Result<bool, RowFault> {
    let many = number(row)?;
    let plain = graph_below(alloc, many)?;
    is_store_of(alloc, many, &plain)
}

const MANY: &str = "\
0
1
11
12
13
100";

#[test]
fn stores_of_few_and_of_many_triples_are_alike(rt: HostRuntime) -> Result<(), Fail> {
    all_met(rt.alloc(), MANY, is_same_as_plain)
}
