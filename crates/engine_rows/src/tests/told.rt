//! What an engine tells, as one text, so that what it told before can be held beside it.
use super::watched::Watched;
use comp_core::Pair;
use edit_engine::Engine;
use graph_view::{GraphView, Reads};
use shx_term::Memory;
use std::alloc::Global;

fn add(text: &str, told: &mut Vec<u8>) -> Result<(), Memory> {
    told.extend_from_slice(text.as_bytes())
}

// Adds what was read for a pair.
fn add_reads(
    alloc: Global,
    pair: Pair,
    what: &str,
    reads: &Reads,
    told: &mut Vec<u8>,
) -> Result<(), Memory> {
    let text = format!(in alloc; "{pair:?} {what} {:?}\n", reads.keys())?;
    add(text.as_str(), told)
}

// Adds what was read for a pair itself, what was read for it in all, and what is remembered of it.
fn add_pair(
    alloc: Global,
    engine: &Engine<Watched>,
    pair: Pair,
    told: &mut Vec<u8>,
) -> Result<(), Memory> {
    if let Some(reads) = engine.record(&pair) {
        add_reads(alloc, pair, "reads itself", reads, told)?;
    }
    if let Some(reads) = engine.reads(alloc, &pair)? {
        add_reads(alloc, pair, "reads in all", &reads, told)?;
    }
    if let Some(found) = engine.recall().find(&pair) {
        let text = format!(in alloc;
            "{pair:?} is {:?} by {:?}\n",
            found.rows,
            found.reads.keys()
        )?;
        add(text.as_str(), told)?;
    }
    Ok(())
}

// Adds the counts and the results.
fn add_report(alloc: Global, engine: &Engine<Watched>, told: &mut Vec<u8>) -> Result<(), Memory> {
    let (pairs, results) = (engine.pair_count(), engine.result_count());
    let text = format!(in alloc; "{pairs} {results} {}\n", engine.recall().len())?;
    add(text.as_str(), told)?;
    for row in engine.rows() {
        let text = format!(in alloc; "{row:?}\n")?;
        add(text.as_str(), told)?;
    }
    Ok(())
}

/// Its counts, its results, and of each pair what was read for it and what is remembered of it.
pub(super) fn told_by(alloc: Global, engine: &Engine<Watched>) -> Result<Vec<u8>, Memory> {
    let mut told = Vec::new(alloc);
    add_report(alloc, engine, &mut told)?;
    for shape in 0..engine.plan().len() {
        for node in 0..engine.view().pool().len() {
            add_pair(alloc, engine, Pair { shape, node }, &mut told)?;
        }
    }
    Ok(told)
}

/// Whether an engine tells this.
pub(super) fn tells(alloc: Global, engine: &Engine<Watched>, due: &[u8]) -> Result<bool, Memory> {
    let told = told_by(alloc, engine)?;
    Ok(told.as_slice() == due)
}
