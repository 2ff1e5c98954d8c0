use super::pairs::shape_of;
use super::words::id_of;
use graph_view::{Key, Reads};
use row_tools::RowFault;
use shape_eval::Plan;
use shx_term::Pool;
use std::alloc::Global;

// A key: a subject; a subject and a predicate; a predicate with `^` and an object; `with` and a predicate; of
// what was found of a pair a shape with `?` and a node.
fn key_of(alloc: Global, pool: &Pool, plan: &Plan, words: &str) -> Result<Key, RowFault> {
    let Some((first, second)) = words.split_once(' ') else {
        return Ok(Key::Subject(id_of(alloc, pool, words)?));
    };
    let behind = id_of(alloc, pool, second)?;
    if first == "with" {
        return Ok(Key::Predicate(behind));
    }
    if let Some(shape) = first.strip_prefix('?') {
        return Ok(Key::Answer(shape_of(alloc, pool, plan, shape)?, behind));
    }
    match first.strip_prefix('^') {
        Some(p) => Ok(Key::In(id_of(alloc, pool, p)?, behind)),
        None => Ok(Key::Out(id_of(alloc, pool, first)?, behind)),
    }
}

/// The keys of a text, with commas between them.
pub(super) fn keys_of(
    alloc: Global,
    pool: &Pool,
    plan: &Plan,
    text: &str,
) -> Result<Reads, RowFault> {
    let mut keys = Reads::new(alloc);
    for words in text.split_terminator(", ") {
        keys.add(key_of(alloc, pool, plan, words)?)?;
    }
    Ok(keys)
}
