//! The lines of a text.
use iri_resolve::is_absolute;
use shx_term::{Id, IriText, Limits, Memory, Pool, Scope, TermKeys, Triple, spell};
use std::alloc::{AllocError, Global};
use ttl_read::{TtlFault, read_document};

/// The triples of a text over a base, a line each, or a line with its fault, or none where the base is not
/// absolute.
pub fn lines_of(alloc: Global, base: &str, text: &[u8]) -> Result<Vec<u8>, Memory> {
    let mut lines = Vec::new(alloc);
    if !is_absolute(base) {
        return Ok(lines);
    }
    let base = IriText::new(String::from_str(alloc, base)?);
    let limits = Limits::program();
    let mut pool = Pool::with_vocabulary(alloc, limits.terms, TermKeys::of([0; 16]))?;
    match read_document(alloc, text, &base, Scope::Data, &limits, &mut pool) {
        Ok(document) => write_triples(&pool, &document.triples, &mut lines)?,
        Err(TtlFault::At { code, at }) => {
            let line = format!(in alloc; "fault {} at {}\n", code, at)?;
            lines.extend_from_slice(line.as_bytes())?;
        }
        Err(TtlFault::Memory) => return Err(AllocError),
    }
    Ok(lines)
}

fn write_triples(pool: &Pool, triples: &[Triple], lines: &mut Vec<u8>) -> Result<(), Memory> {
    for triple in triples {
        write_term(pool, triple.s, b" ", lines)?;
        write_term(pool, triple.p, b" ", lines)?;
        write_term(pool, triple.o, b" .\n", lines)?;
    }
    Ok(())
}

// A term, if the number is that of one, and what stands behind it.
fn write_term(pool: &Pool, id: Id, behind: &[u8], lines: &mut Vec<u8>) -> Result<(), Memory> {
    if id < pool.len() {
        spell(pool.term(id), lines)?;
    }
    Ok(lines.extend_from_slice(behind)?)
}
