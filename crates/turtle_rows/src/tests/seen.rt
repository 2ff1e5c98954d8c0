//! What the tables share: signs for what a row cannot hold, documents, and what is written of them.
ghost use Rattle.std.specs.Prelude.{◌≤◌};

use iri_resolve::is_absolute;
use row_tools::{RowFault, iri_text, vocabulary_pool};
use shx_term::{Limits, Memory, Pool, Scope, Term, spell};
use std::alloc::Global;
use ttl_read::{Document, TtlFault, read_document};

/// The base of the examples in RFC 3986.
pub(super) const BASE: &str = "http://a/b/c/d;p?q";

// The signs of a row for characters that it cannot hold, and for the beginnings of IRIs, with what they
// stand for.
const SIGNS: [(&str, &str); 9] = [
    ("␊", "\n"),
    ("␍", "\r"),
    ("␉", "\t"),
    ("␀", "\0"),
    ("␈", "\u{8}"),
    ("␂", "\u{feff}"),
    ("␌", "\u{c}"),
    ("<rdf:", "<http://www.w3.org/1999/02/22-rdf-syntax-ns#"),
    ("<xsd:", "<http://www.w3.org/2001/XMLSchema#"),
];

/// A row with what its signs stand for: `␀`, `␈`, `␉`, `␊`, `␌` and `␍` for control characters, `␂` for a
/// byte order mark, and `<rdf:` and `<xsd:` for the beginnings of IRIs.
pub(super) fn text_of(alloc: Global, row: &str) -> Result<String, Memory> {
    let mut text = String::from_str(alloc, row)?;
    for (sign, meant) in &SIGNS {
        text = text.as_str().replace(alloc, sign, meant)?;
    }
    Ok(text)
}

/// What a text states over `BASE`, within limits.
pub(super) fn read(
    alloc: Global,
    text: &str,
    scope: Scope,
    limits: &Limits,
    pool: &mut Pool,
) -> Result<Document, TtlFault>
    requires { limits.now.turtle_depth ≤ 128 }
{
    let base = iri_text(alloc, BASE)?;
    if !is_absolute(base.as_str()) {
        return Err(TtlFault::Memory);
    }
    read_document(alloc, text.as_bytes(), &base, scope, limits, pool)
}

/// What a data text states within the limits of the program.
pub(super) fn document_of(alloc: Global, stated: &str) -> Result<Document, RowFault> {
    let limits = Limits::program();
    let mut pool = vocabulary_pool(alloc, limits.terms)?;
    match read(alloc, stated, Scope::Data, &limits, &mut pool) {
        Ok(document) => Ok(document),
        Err(TtlFault::At { .. }) => Err(RowFault::Unread),
        Err(TtlFault::Memory) => Err(RowFault::Memory),
    }
}

/// Adds pieces of text.
pub(super) fn add(pieces: &[&str], out: &mut Vec<u8>) -> Result<(), Memory> {
    for piece in pieces {
        out.extend_from_slice(piece.as_bytes())?;
    }
    Ok(())
}

/// Adds a number, and what stands before it.
pub(super) fn add_number(
    alloc: Global,
    front: &str,
    number: u64,
    out: &mut Vec<u8>,
) -> Result<(), Memory> {
    let text = format!(in alloc; "{front}{number}")?;
    out.extend_from_slice(text.as_str().as_bytes())
}

/// Adds a code, and the byte that it is told of.
pub(super) fn add_fault(
    alloc: Global,
    front: &str,
    code: u32,
    at: u64,
    out: &mut Vec<u8>,
) -> Result<(), Memory> {
    add_number(alloc, front, u64::from(code), out)?;
    add_number(alloc, " at ", at, out)
}

/// Adds a term, and the mark that stands before it.
pub(super) fn add_term(mark: u8, term: &Term, out: &mut Vec<u8>) -> Result<(), Memory> {
    out.push(mark)?;
    spell(term, out)
}
