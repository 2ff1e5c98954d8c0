//! Searches along the answers that were read for others: whom a change reaches, and what was read in all.
ghost use Rattle.std.specs.Prelude.{◌≡◌, ◌↔◌, ◌++◌, Contains, IfOk, OnOk};
ghost use Rattle.comp_core.specs.declared.pair.Pair.{Pair};
ghost use Rattle.read_records.specs.Recall.{IsReached};
ghost use Rattle.read_records.specs.inner.Reached.{AddsReaders, AddsParts};
ghost use Rattle.read_records.specs.inner.Remembered.{as_recalled};

use crate::Reader;
use crate::store::Store;
use crate::touched::touched_keys;
use comp_core::{Pair, RowList};
use graph_view::{Key, Reads};
use indexmap::IndexSet;
use shx_term::{Memory, Triple};
use std::alloc::Global;
use std::slice;

/// The pairs whose answers were read from a key that one of these triples touches, or from the answer of one
/// that is found.
pub(crate) fn reached_by(
    alloc: Global,
    store: &Store<RowList>,
    added: &[Triple],
    removed: &[Triple],
) -> Result<IndexSet<Pair>, Memory>
    ensures { IfOk result (λ reached. (p : Pair) → Contains reached.keys p
        ↔ IsReached (as_recalled store.now) (added.now ++ removed.now) p) }
{
    let mut reached = IndexSet::new(alloc);
    let keys = touched_keys(alloc, added, removed)?;
    add_readers(alloc, store, &keys, &mut reached)?;
    let mut at = 0;
    while at < reached.as_slice().len() {
        let key = reached.as_slice()[at].answer_key();
        add_readers(alloc, store, slice::from_ref(&key), &mut reached)?;
        at += 1;
    }
    Ok(reached)
}

// Adds, behind the others, the pairs whose answers were read from one of these keys.
fn add_readers(
    alloc: Global,
    store: &Store<RowList>,
    keys: &[Key],
    reached: &mut IndexSet<Pair>,
) -> Result<(), Memory>
    ensures { OnOk result
        (AddsReaders (as_recalled store.now) keys.now reached.old.keys reached.new.keys) }
{
    for reader in &store.readers_of(alloc, keys)? {
        if let Reader::OfPair(pair) = reader {
            reached.insert(*pair)?;
        }
    }
    Ok(())
}

/// Adds keys that were read: the parts of the graph to those, and behind the others the pairs whose answers
/// were read.
pub(crate) fn add_parts(
    keys: &Reads,
    answers: &mut IndexSet<Pair>,
    all: &mut Reads,
) -> Result<(), Memory>
    ensures { OnOk result (AddsParts keys.now answers.old.keys answers.new.keys all.old all.new) }
{
    for key in keys.keys() {
        match *key {
            Key::Answer(shape, node) => {
                answers.insert(Pair { shape, node })?;
            }
            _ => all.add(*key)?,
        }
    }
    Ok(())
}
