//! Many edits of one store. None goes over what is held, so that all of them end in time.
use super::ending::Ending;
use super::graphs::store_with_room;
use super::steps::inserted;
use graph_view::{GraphEdit, GraphView};
use row_tools::{RowFault, all_met, number};
use shx_term::Triple;
use shx_term::vocabulary::VOCABULARY_LEN;
use std::alloc::Global;
use std::test::Fail;
use triple_store::Store;

// Another triple over the terms of the vocabulary for each number.
fn triple_at(number: u32) -> Triple {
    Triple {
        s: number / (62 * 62) % 62,
        p: number / 62 % 62,
        o: number % 62,
    }
}

fn takes(store: &mut Store, many: u32) -> Result<bool, RowFault> {
    for number in 0..many {
        if inserted(store, triple_at(number))? != Ending::New {
            return Ok(false);
        }
    }
    Ok(store.len() == u64::from(many))
}

fn gives_up(store: &mut Store, many: u32) -> bool {
    for number in 0..many {
        if !store.remove(&triple_at(number)) {
            return false;
        }
    }
    store.len() == 0
}

// Whether a store with room for so many triples takes and gives up each of them.
fn takes_and_gives_up(alloc: Global, row: &str) -> Result<bool, RowFault> {
    let many = number(row)?;
    let mut store = store_with_room(alloc, VOCABULARY_LEN, many)?;
    Ok(takes(&mut store, many)? && gives_up(&mut store, many))
}

#[test]
fn many_edits_end_in_time(rt: HostRuntime) -> Result<(), Fail> {
    all_met(rt.alloc(), "20000", takes_and_gives_up)
}
