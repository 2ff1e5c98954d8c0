//! What rows come to: each begins with a word for what is looked at.

use super::documents::add_texts;
use super::lines::add_line;
use super::seen::text_of;
use super::terms::add_found;
use super::tokens::{add_meaning, add_tokens};
use row_tools::{RowFault, cut};
use std::alloc::Global;

/// Whether a row comes to what it says behind its arrow.
pub(super) fn is_as_said(alloc: Global, row: &str) -> Result<bool, RowFault> {
    let row = text_of(alloc, row)?;
    let (row, due) = cut(row.as_str(), "→")?;
    has_outcome(alloc, row, due)
}

fn has_outcome(alloc: Global, row: &str, due: &str) -> Result<bool, RowFault> {
    let mut out = Vec::new(alloc);
    add_outcome(alloc, row, &mut out)?;
    Ok(out.as_slice() == due.as_bytes())
}

fn add_outcome(alloc: Global, row: &str, out: &mut Vec<u8>) -> Result<(), RowFault> {
    let (kind, row) = cut(row, "|")?;
    match kind {
        "tokens" => Ok(add_tokens(alloc, row, out)?),
        "meaning" => add_meaning(alloc, row, out),
        "text" => add_texts(alloc, row, out),
        "term" => add_found(alloc, row, out),
        "line" => add_line(alloc, row, out),
        _ => Err(RowFault::Unread),
    }
}
