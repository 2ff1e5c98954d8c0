//! Results: two of the one shape, one of no component, since these end at 29, and one of no shape.
use comp_core::kinds::{CLOSED, MIN_COUNT, NODE};
use comp_core::{DetailRow, Details, ResultRow};
use shx_term::Memory;
use shx_term::vocabulary::{RDF_NIL, RDF_TYPE, SH_IN, SH_NODE_SHAPE};
use std::alloc::Global;

const FOUND: [DetailRow; 4] = [
    DetailRow {
        focus: RDF_NIL,
        value: None,
        predicate: None,
        shape: 0,
        kind: MIN_COUNT,
    },
    DetailRow {
        focus: SH_NODE_SHAPE,
        value: Some(RDF_NIL),
        predicate: None,
        shape: 0,
        kind: NODE,
    },
    DetailRow {
        focus: SH_NODE_SHAPE,
        value: Some(SH_IN),
        predicate: None,
        shape: 0,
        kind: 30,
    },
    DetailRow {
        focus: SH_NODE_SHAPE,
        value: None,
        predicate: None,
        shape: 1,
        kind: MIN_COUNT,
    },
];

// On which that of sh:node rests.
const BELOW: DetailRow = DetailRow {
    focus: RDF_NIL,
    value: Some(SH_IN),
    predicate: Some(RDF_TYPE),
    shape: 0,
    kind: CLOSED,
};

fn plain(alloc: Global, row: DetailRow) -> Result<ResultRow, Memory> {
    ResultRow::plain(
        alloc,
        row.focus,
        row.value,
        row.predicate,
        row.shape,
        row.kind,
    )
}

fn details(alloc: Global) -> Result<Details, Memory> {
    Details::of(alloc, &[plain(alloc, BELOW)?])
}

fn result(alloc: Global, row: DetailRow) -> Result<ResultRow, Memory> {
    let mut result = plain(alloc, row)?;
    if row.kind == NODE {
        result.details = details(alloc)?;
    }
    Ok(result)
}

/// These results.
pub(super) fn results(alloc: Global) -> Result<Vec<ResultRow>, Memory> {
    let mut results = Vec::new(alloc);
    for row in FOUND {
        results.push(result(alloc, row)?)?;
    }
    Ok(results)
}
