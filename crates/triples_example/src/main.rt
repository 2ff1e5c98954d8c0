//! Reads a text of Turtle with `ttl_read` and prints the triples that it states, a line each; or its fault,
//! by the code that stands in the page of `ttl_read`, and the byte at which it stands. Change `TEXT` to see
//! what another text states, and `BASE` to see what `<dune>` becomes.
#![tactic(auto)]

use anyhow::{Result, bail, ensure};
use iri_resolve::is_absolute;
use shx_term::{IriText, Limits, Pool, Scope, TermKeys, Triple, spell};
use std::alloc::Global;
use std::io;
use std::io::Write;
use ttl_read::{TtlFault, read_document};

const BASE: &str = "http://example.org/library/";

const TEXT: &str = "\
@prefix lib: <http://example.org/terms/> .
<dune> lib:title 'Dune'@en ; lib:pages 612 ; lib:author [ lib:name 'Frank Herbert' ] .
";

fn main(rt: HostRuntime) -> Result<()> {
    let alloc = rt.alloc();
    let base = IriText::from_str(alloc, BASE)?;
    ensure!(is_absolute(base.as_str()), "the base is not absolute");
    let limits = Limits::program();
    let mut pool = Pool::with_vocabulary(alloc, limits.terms, TermKeys::drawn(&rt)?)?;
    match read_document(
        alloc,
        TEXT.as_bytes(),
        &base,
        Scope::Data,
        &limits,
        &mut pool,
    ) {
        Ok(document) => {
            let lines = lines_of(alloc, &pool, &document.triples)?;
            Ok(io::writer(&rt).write_all(&lines)?)
        }
        Err(TtlFault::At { code, at }) => bail!("fault {code} at byte {at}"),
        Err(TtlFault::Memory) => bail!("out of memory"),
    }
}

// A line for each triple. A triple has numbers, whose terms the pool has; the checker is told so by a test.
fn lines_of(alloc: Global, pool: &Pool, triples: &[Triple]) -> Result<Vec<u8>> {
    let mut lines = Vec::new(alloc);
    for triple in triples {
        for id in [triple.s, triple.p, triple.o] {
            if id < pool.len() {
                spell(pool.term(id), &mut lines)?;
                lines.push(b' ')?;
            }
        }
        lines.extend_from_slice(b".\n")?;
    }
    Ok(lines)
}
