use super::rows::PATHS;
use path_eval::Path;
use report_write::add_path;
use row_tools::{RowFault, all_met, in_three, vocabulary_pool};
use shx_outside::MemorySink;
use shx_term::Pool;
use shx_term::vocabulary::{RDF_TYPE, VOCABULARY_LEN};
use std::alloc::Global;
use std::test::Fail;
use text_output::{Format, Writer};

fn one(alloc: Global) -> Result<Vec<Path>, RowFault> {
    Ok(vec![in alloc; Path::Pred(RDF_TYPE)]?)
}

// The path of a mark.
fn path_of(alloc: Global, mark: &str) -> Result<Path, RowFault> {
    match mark {
        "p" => Ok(Path::Pred(RDF_TYPE)),
        "^" => Ok(Path::Inverse(Box::new(alloc, Path::Pred(RDF_TYPE))?)),
        "/p" => Ok(Path::Seq(one(alloc)?)),
        "|p" => Ok(Path::Alt(one(alloc)?)),
        "/" => Ok(Path::Seq(Vec::new(alloc))),
        "|" => Ok(Path::Alt(Vec::new(alloc))),
        _ => Err(RowFault::Unread),
    }
}

// Whether a path is put as this text.
fn is_put(alloc: Global, path: &Path, pool: &Pool, format: Format, text: &str) -> bool {
    let mut sink = MemorySink::new(alloc, 4096, Vec::new(alloc));
    let mut writer = Writer::new(&mut sink);
    add_path(path, format, pool, &mut writer);
    writer.finish().is_ok() && sink.bytes() == text.as_bytes()
}

fn is_put_in_both(alloc: Global, path: &Path, lines: &str, turtle: &str) -> Result<bool, RowFault> {
    let pool = vocabulary_pool(alloc, VOCABULARY_LEN)?;
    Ok(
        is_put(alloc, path, &pool, Format::Lines, lines)
            && is_put(alloc, path, &pool, Format::Turtle, turtle),
    )
}

// Whether the path of a row is put as the row says.
fn is_as_said(alloc: Global, row: &str) -> Result<bool, RowFault> {
    let (mark, lines, turtle) = in_three(row, " : ")?;
    is_put_in_both(alloc, &path_of(alloc, mark)?, lines, turtle)
}

#[test]
fn paths_are_put_as_said(rt: HostRuntime) -> Result<(), Fail> {
    all_met(rt.alloc(), PATHS, is_as_said)
}
