mod rows;

use super::outcomes::is_as_said;
use super::seen::{add_fault, add_number, add_term, document_of};
use row_tools::{RowFault, all_met, cut};
use std::alloc::Global;
use std::test::Fail;
use ttl_read::{Document, TtlFault, read_term};
use ttl_tokens::next_token;

/// Adds what is found at the first token of a text, by what the text before its mark states.
pub(super) fn add_found(alloc: Global, row: &str, out: &mut Vec<u8>) -> Result<(), RowFault> {
    let (stated, text) = cut(row, "¦")?;
    let document = document_of(alloc, stated)?;
    add_found_by(alloc, &document, text, out)
}

// A term and the byte behind it, or a code and a byte.
fn add_found_by(
    alloc: Global,
    document: &Document,
    text: &str,
    out: &mut Vec<u8>,
) -> Result<(), RowFault> {
    let Ok(token) = next_token(text, 0) else {
        return Err(RowFault::Unread);
    };
    match read_term(alloc, text, &token, document) {
        Ok(reading) => {
            add_number(alloc, "to ", reading.end as u64, out)?;
            Ok(add_term(b' ', &reading.term, out)?)
        }
        Err(TtlFault::At { code, at }) => Ok(add_fault(alloc, "", code, at, out)?),
        Err(TtlFault::Memory) => Err(RowFault::Memory),
    }
}

#[test]
fn terms_are_found_as_is_said(rt: HostRuntime) -> Result<(), Fail> {
    all_met(rt.alloc(), rows::ROWS, is_as_said)
}
