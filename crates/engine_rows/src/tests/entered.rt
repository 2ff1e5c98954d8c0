//! Terms that are entered beside the graph, and given back.
ghost use Rattle.std.specs.Prelude.{◌≡◌};

use super::told::{tells, told_by};
use super::watched::Watched;
use edit_engine::Engine;
use graph_view::GraphView;
use row_tools::{RowFault, cut, iri_text, number};
use shx_term::{Id, PoolFault, Term};
use std::alloc::Global;

fn enter(alloc: Global, engine: &mut Engine<Watched>, name: &str) -> Result<Id, RowFault>
    ensures { engine.new.settled ≡ engine.old.settled }
{
    let iri = format!(in alloc; "http://e/{name}")?;
    let term = Term::Iri(iri_text(alloc, iri.as_str())?);
    Ok(engine.enter(&term)?)
}

// Whether a term has the place that is due behind those that were held, or is one of them, `-`.
fn has_place(id: Id, held: u32, due: &str) -> Result<bool, RowFault> {
    if id < held {
        return Ok(due == "-");
    }
    Ok(id - held == number(due)?)
}

// Whether terms are entered that have the places that are due.
fn have_places(
    alloc: Global,
    engine: &mut Engine<Watched>,
    held: u32,
    words: &str,
) -> Result<bool, RowFault>
    ensures { engine.new.settled ≡ engine.old.settled }
{
    for word in words.split(' ') {
        let (name, due) = cut(word, "=")?;
        let id = enter(alloc, engine, name)?;
        if !has_place(id, held, due)? {
            return Ok(false);
        }
    }
    Ok(true)
}

// Whether terms are entered as is due, given back, and entered once more, and the engine tells this with them
// and without.
fn are_given_back(
    alloc: Global,
    engine: &mut Engine<Watched>,
    words: &str,
    told: &[u8],
) -> Result<bool, RowFault> {
    let held = engine.view().pool().len();
    let are_placed = have_places(alloc, engine, held, words)?;
    if !are_placed || engine.view().pool().len() < held || !tells(alloc, engine, told)? {
        return Ok(false);
    }
    engine.cut(held);
    if engine.view().pool().len() != held || !tells(alloc, engine, told)? {
        return Ok(false);
    }
    Ok(have_places(alloc, engine, held, words)? && tells(alloc, engine, told)?)
}

/// Whether terms can be entered, given back and entered once more, after which they stay: words `NAME=PLACE`.
pub(super) fn are_entered(
    alloc: Global,
    engine: &mut Engine<Watched>,
    words: &str,
) -> Result<bool, RowFault> {
    let told = told_by(alloc, engine)?;
    are_given_back(alloc, engine, words, &told)
}
