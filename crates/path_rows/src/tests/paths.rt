use super::cells::number;
use path_eval::Path;
use row_tools::RowFault;
use std::alloc::Global;

fn wrapped(mark: u8, inner: Box<Path>) -> Path {
    match mark {
        b'^' => Path::Inverse(inner),
        b'*' => Path::ZeroOrMore(inner),
        b'+' => Path::OneOrMore(inner),
        _ => Path::ZeroOrOne(inner),
    }
}

fn joined(mark: u8, parts: Vec<Path>) -> Path {
    match mark {
        b'/' | b'1' => Path::Seq(parts),
        _ => Path::Alt(parts),
    }
}

// The last of the paths in what the mark stands for.
fn last_in(alloc: Global, paths: &mut Vec<Path>, mark: u8) -> Result<Path, RowFault> {
    match paths.pop() {
        Some(last) => Ok(wrapped(mark, Box::new(alloc, last)?)),
        None => Err(RowFault::Unread),
    }
}

// The path that a mark makes of those that were read before it.
fn next_path(alloc: Global, paths: &mut Vec<Path>, mark: u8) -> Result<Path, RowFault> {
    match mark {
        b'^' | b'*' | b'+' | b'?' => last_in(alloc, paths, mark),
        b'/' | b'|' => Ok(joined(mark, paths.split_off(0)?)),
        b'0' | b'1' => Ok(joined(mark, Vec::new(alloc))),
        letter => Ok(Path::Pred(number(letter)?)),
    }
}

/// The path of some marks, each behind what it takes.
pub(super) fn path(alloc: Global, marks: &str) -> Result<Path, RowFault> {
    let mut paths = Vec::new(alloc);
    for mark in marks.bytes() {
        let path = next_path(alloc, &mut paths, mark)?;
        paths.push(path)?;
    }
    match paths.len() {
        1 => paths.pop().ok_or(RowFault::Unread),
        _ => Err(RowFault::Unread),
    }
}
