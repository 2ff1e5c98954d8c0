use super::plans::plan;
use super::results::results;
use super::rows::REPORTS;
use comp_core::ResultRow;
use report_write::{add_head, add_rows, add_tail, write_report};
use row_tools::{RowFault, all_blocks_met, cut, vocabulary_pool};
use shape_eval::Plan;
use shx_outside::MemorySink;
use shx_term::vocabulary::VOCABULARY_LEN;
use shx_term::{Pieces, Pool};
use std::alloc::Global;
use std::test::Fail;
use text_output::{Format, Writer};

// Whether a line feed alone stands behind a front and a text.
fn is_behind(front: &[u8], bytes: &[u8], text: &str) -> bool {
    match bytes.strip_prefix(front) {
        Some(rest) => rest.strip_suffix(b"\n") == Some(text.as_bytes()),
        None => false,
    }
}

// Whether a report is put as this text.
fn is_put(
    alloc: Global,
    rows: &[ResultRow],
    plan: &Plan,
    pool: &Pool,
    format: Format,
    text: &str,
) -> bool {
    let mut sink = MemorySink::new(alloc, 50, Vec::new(alloc));
    let count = rows.len() as u64;
    let written = write_report(rows.iter(), count, plan, pool, format, &mut sink);
    written.is_ok() && is_behind(b"", sink.bytes(), text)
}

// Whether it is put as this text behind a line that was added before, where its results stand in two places.
fn is_put_behind(
    alloc: Global,
    rows: &[ResultRow],
    plan: &Plan,
    pool: &Pool,
    format: Format,
    text: &str,
) -> bool {
    let mut sink = MemorySink::new(alloc, 4096, Vec::new(alloc));
    let mut writer = Writer::new(&mut sink);
    writer.add(b"before\n");
    add_head(rows.len() as u64, format, &mut writer);
    let (front, back) = rows.split_at(rows.len() / 2);
    add_rows(front.iter(), plan, pool, format, &mut writer);
    add_rows(back.iter(), plan, pool, format, &mut writer);
    add_tail(format, &mut writer);
    writer.finish().is_ok() && is_behind(b"before\n", sink.bytes(), text)
}

// Whether results over the plan of the tables are put as this text.
fn are_put_over(
    alloc: Global,
    rows: &[ResultRow],
    pool: &Pool,
    format: Format,
    text: &str,
) -> Result<bool, RowFault> {
    let plan = plan(alloc, pool)?;
    Ok(
        is_put(alloc, rows, &plan, pool, format, text)
            && is_put_behind(alloc, rows, &plan, pool, format, text),
    )
}

// The same with the pool of the tables.
fn are_put(alloc: Global, rows: &[ResultRow], format: &str, text: &str) -> Result<bool, RowFault> {
    let pool = vocabulary_pool(alloc, VOCABULARY_LEN)?;
    are_put_over(alloc, rows, &pool, format_of(format), text)
}

/// The format of a name.
pub(super) fn format_of(name: &str) -> Format {
    match name {
        "turtle" => Format::Turtle,
        _ => Format::Lines,
    }
}

// Whether the results are put in the format of a block as its text.
fn is_as_said(alloc: Global, block: &str) -> Result<bool, RowFault> {
    let (format, text) = cut(block, "\n| ")?;
    are_put(alloc, &results(alloc)?, format, text)
}

#[test]
fn reports_are_put_as_said(rt: HostRuntime) -> Result<(), Fail> {
    all_blocks_met(rt.alloc(), REPORTS, is_as_said)
}
