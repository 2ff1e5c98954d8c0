mod limits;
mod stated;

ghost use Rattle.std.specs.Prelude.{◌≤◌};

use super::outcomes::is_as_said;
use super::seen::{BASE, add, add_fault, add_number, add_term, read};
use row_tools::{RowFault, all_blocks_met, cut, in_three, number, vocabulary_pool};
use shx_term::vocabulary::VOCABULARY_LEN;
use shx_term::{Id, Label, Limits, Memory, Pool, Scope, Triple};
use std::alloc::Global;
use std::test::Fail;
use ttl_read::{Document, Prefix, TtlFault};

// The limits of the program, but for those that a row has: of brackets, of triples and of terms.
fn limits_of(named: &str) -> Result<Limits, RowFault> {
    let (depth, triples, terms) = in_three(named, " ")?;
    let mut limits = Limits::program();
    limits.turtle_depth = number(depth)?;
    limits.triples = u64::from(number(triples)?);
    limits.terms = number(terms)?;
    Ok(limits)
}

/// Adds what two texts come to that are read into one pool, the shapes and the data behind their mark, within
/// the limits before them.
pub(super) fn add_texts(alloc: Global, row: &str, out: &mut Vec<u8>) -> Result<(), RowFault> {
    let (named, texts) = cut(row, "|")?;
    let (shapes, data) = cut(texts, "¦")?;
    let limits = limits_of(named)?;
    if limits.terms < VOCABULARY_LEN || limits.turtle_depth > 128 {
        return Err(RowFault::Unread);
    }
    add_both(alloc, shapes, data, &limits, out)
}

fn add_both(
    alloc: Global,
    shapes: &str,
    data: &str,
    limits: &Limits,
    out: &mut Vec<u8>,
) -> Result<(), RowFault>
    requires terms { 62 ≤ limits.now.terms }
    requires depth { limits.now.turtle_depth ≤ 128 }
{
    let mut pool = vocabulary_pool(alloc, limits.terms)?;
    add_text(alloc, shapes, Scope::Shapes, limits, &mut pool, out)?;
    add_text(alloc, data, Scope::Data, limits, &mut pool, out)
}

// Adds what a text states, or its fault, and which terms the pool then holds behind the vocabulary.
fn add_text(
    alloc: Global,
    text: &str,
    scope: Scope,
    limits: &Limits,
    pool: &mut Pool,
    out: &mut Vec<u8>,
) -> Result<(), RowFault>
    requires { limits.now.turtle_depth ≤ 128 }
{
    match read(alloc, text, scope, limits, pool) {
        Ok(document) => add_document(alloc, &document, pool, out)?,
        Err(TtlFault::At { code, at }) => add_fault(alloc, "\n", code, at, out)?,
        Err(TtlFault::Memory) => return Err(RowFault::Memory),
    }
    add_held(pool, out)
}

// Adds a document as lines: its triples, its prefixes, its labels, its base where that is another than
// `BASE`, and how many blank nodes have no label, where there are some.
fn add_document(
    alloc: Global,
    document: &Document,
    pool: &Pool,
    out: &mut Vec<u8>,
) -> Result<(), RowFault> {
    add_triples(pool, document.triples.as_slice(), out)?;
    add_prefixes(document.prefixes.as_slice(), out)?;
    add_labels(document.labels.as_slice(), out)?;
    if document.base.as_str() != BASE {
        add(&["\nbase <", document.base.as_str(), ">"], out)?;
    }
    if document.anonymous > 0 {
        add_number(alloc, "\nanonymous ", u64::from(document.anonymous), out)?;
    }
    Ok(())
}

fn add_triples(pool: &Pool, triples: &[Triple], out: &mut Vec<u8>) -> Result<(), RowFault> {
    for triple in triples {
        add_id(pool, b'\n', triple.s, out)?;
        add_id(pool, b' ', triple.p, out)?;
        add_id(pool, b' ', triple.o, out)?;
    }
    Ok(())
}

// Adds the term of a number, and the mark that stands before it.
fn add_id(pool: &Pool, mark: u8, id: Id, out: &mut Vec<u8>) -> Result<(), RowFault> {
    if id >= pool.len() {
        return Err(RowFault::Unread);
    }
    Ok(add_term(mark, pool.term(id), out)?)
}

fn add_prefixes(prefixes: &[Prefix], out: &mut Vec<u8>) -> Result<(), Memory> {
    for prefix in prefixes {
        let (name, iri) = (prefix.name.as_str(), prefix.iri.as_str());
        add(&["\nprefix ", name, ": <", iri, ">"], out)?;
    }
    Ok(())
}

fn add_labels(labels: &[Label], out: &mut Vec<u8>) -> Result<(), Memory> {
    for label in labels {
        add(&["\nlabel ", label.as_str()], out)?;
    }
    Ok(())
}

fn add_held(pool: &Pool, out: &mut Vec<u8>) -> Result<(), RowFault> {
    if pool.len() > VOCABULARY_LEN {
        add(&["\nheld"], out)?;
    }
    for id in VOCABULARY_LEN..pool.len() {
        add_id(pool, b' ', id, out)?;
    }
    Ok(())
}

#[test]
fn texts_state_what_is_said(rt: HostRuntime) -> Result<(), Fail> {
    all_blocks_met(rt.alloc(), stated::ROWS, is_as_said)
}

#[test]
fn texts_are_read_within_limits(rt: HostRuntime) -> Result<(), Fail> {
    all_blocks_met(rt.alloc(), limits::ROWS, is_as_said)
}
