use super::reports::format_of;
use super::rows::SLICES;
use report_write::write_slice;
use row_tools::{RowFault, all_blocks_met, cut, vocabulary_pool};
use shx_outside::MemorySink;
use shx_term::vocabulary::{RDF_FIRST, RDF_NIL, RDF_TYPE, SH_IN, SH_NODE_SHAPE, VOCABULARY_LEN};
use shx_term::{Pool, Triple};
use std::alloc::Global;
use std::test::Fail;
use text_output::Format;

const TRIPLES: [Triple; 2] = [
    Triple {
        s: SH_NODE_SHAPE,
        p: RDF_TYPE,
        o: SH_IN,
    },
    Triple {
        s: SH_IN,
        p: RDF_FIRST,
        o: RDF_NIL,
    },
];

// Whether the slice is put as this text, byte by byte.
fn is_put(alloc: Global, pool: &Pool, format: Format, text: &str) -> bool {
    let mut sink = MemorySink::new(alloc, 1, Vec::new(alloc));
    let written = write_slice(&TRIPLES, pool, format, &mut sink);
    written.is_ok() && sink.bytes().strip_suffix(b"\n") == Some(text.as_bytes())
}

// Whether it is put in the format of a block as its text.
fn is_as_said(alloc: Global, block: &str) -> Result<bool, RowFault> {
    let (format, text) = cut(block, "\n| ")?;
    let pool = vocabulary_pool(alloc, VOCABULARY_LEN)?;
    Ok(is_put(alloc, &pool, format_of(format), text))
}

#[test]
fn a_slice_is_put_whole(rt: HostRuntime) -> Result<(), Fail> {
    all_blocks_met(rt.alloc(), SLICES, is_as_said)
}
