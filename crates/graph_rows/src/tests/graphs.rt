use super::found::Found;
use super::letters::graph_of;
use graph_view::{GraphEdit, GraphView, ListGraph, StoreFault};
use row_tools::{RowFault, all_met, cut, number, vocabulary_pool};
use shx_term::Triple;
use shx_term::vocabulary::VOCABULARY_LEN;
use std::alloc::Global;
use std::test::Fail;
use triple_store::Store;

fn are_triples(alloc: Global, triples: &[Triple], due: &str) -> Result<bool, RowFault> {
    let mut wanted = Found::new(alloc);
    wanted.take(due)?;
    Ok(triples == wanted.triples())
}

// How many triples a graph may hold, and those that it holds, in the order in which it lends them.
fn is_lent(alloc: Global, row: &str) -> Result<bool, RowFault> {
    let (limit, due) = cut(row, ":")?;
    let graph = graph_of(alloc, 75, u64::from(number(limit)?), due)?;
    are_triples(alloc, graph.triples(), due)
}

fn are_numbers(mut found: &[u64], words: &str) -> Result<bool, RowFault> {
    for word in words.split_whitespace() {
        match found.split_first() {
            Some((first, rest)) if *first == u64::from(number(word)?) => found = rest,
            _ => return Ok(false),
        }
    }
    Ok(found.is_empty())
}

/// The store of a graph without triples that has room for so many terms and triples.
pub(super) fn store_with_room(alloc: Global, terms: u32, limit: u32) -> Result<Store, RowFault> {
    if terms < VOCABULARY_LEN {
        return Err(RowFault::Unread);
    }
    let pool = vocabulary_pool(alloc, terms)?;
    Ok(Store::from_list(alloc, ListGraph::new(alloc, pool, u64::from(limit)))?)
}

// How many terms and triples a graph without triples has room for; how many triples a store of it has, and
// has room for; and how many terms the pool that it gives back has, and has room for.
fn is_given_back(alloc: Global, row: &str) -> Result<bool, RowFault> {
    let (rooms, due) = cut(row, " → ")?;
    let (terms, limit) = cut(rooms, " ")?;
    let store = store_with_room(alloc, number(terms)?, number(limit)?)?;
    let (triples, limit) = (store.len(), store.limit());
    let pool = store.into_pool();
    let terms = [u64::from(pool.len()), u64::from(pool.limit())];
    are_numbers(&[triples, limit, terms[0], terms[1]], due)
}

// A fault, and its text.
fn has_text(alloc: Global, row: &str) -> Result<bool, RowFault> {
    let (name, due) = cut(row, ": ")?;
    let fault = match name {
        "TooMany" => StoreFault::TooMany,
        "Memory" => StoreFault::Memory,
        _ => return Err(RowFault::Unread),
    };
    Ok(fault.to_string(alloc)?.as_str() == due)
}

const LENT: &str = "\
1:
1:apb
3:bpc apb aqb";

#[test]
fn a_graph_lends_its_triples(rt: HostRuntime) -> Result<(), Fail> {
    all_met(rt.alloc(), LENT, is_lent)
}

const GIVEN_BACK: &str = "63 5 → 0 5 62 63";

#[test]
fn a_store_gives_its_pool_back(rt: HostRuntime) -> Result<(), Fail> {
    all_met(rt.alloc(), GIVEN_BACK, is_given_back)
}

const FAULTS: &str = "\
TooMany: the graph is full
Memory: out of memory";

#[test]
fn store_faults_have_a_text(rt: HostRuntime) -> Result<(), Fail> {
    all_met(rt.alloc(), FAULTS, has_text)
}
