//! What is looked up in a graph. A question is a triple, a key, `len` or `terms`; or a key, `#` and a number,
//! for how many triples touch the key, up to that number.
use super::found::Found;
use super::letters::{key_of, triple_of};
use graph_view::{GraphView, Key};
use row_tools::{RowFault, number};
use shx_term::{Memory, Triple};
use std::alloc::Global;

#[derive(Clone, Copy)]
enum Question {
    Under(Key),
    Count(Key, u32),
    Held(Triple),
    Len,
    Terms,
}

fn question_of(text: &str) -> Result<Question, RowFault> {
    if let Some((key, most)) = text.split_once('#') {
        return Ok(Question::Count(key_of(key)?, number(most)?));
    }
    if text.contains('?') {
        return Ok(Question::Under(key_of(text)?));
    }
    match text {
        "len" => Ok(Question::Len),
        "terms" => Ok(Question::Terms),
        _ => Ok(Question::Held(triple_of(text)?)),
    }
}

fn is_number(found: u64, due: &str) -> Result<bool, RowFault> {
    Ok(u64::from(number(due)?) == found)
}

fn is_said(held: bool, due: &str) -> Result<bool, RowFault> {
    match due {
        "true" => Ok(held),
        "false" => Ok(!held),
        _ => Err(RowFault::Unread),
    }
}

fn finds<V: GraphView>(alloc: Global, view: &V, key: &Key, due: &str) -> Result<bool, RowFault> {
    let mut found = Found::new(alloc);
    found.look_up(alloc, view, key)?;
    found.is_as_due(alloc, due)
}

/// Whether a graph answers a question as is due; `-` is for nothing.
pub(super) fn answers<V: GraphView>(
    alloc: Global,
    view: &V,
    question: &str,
    due: &str,
) -> Result<bool, RowFault> {
    match question_of(question)? {
        Question::Under(key) => finds(alloc, view, &key, due),
        Question::Count(key, most) => is_number(view.count_up_to(&key, u64::from(most)), due),
        Question::Held(t) => is_said(view.contains(&t), due),
        Question::Len => is_number(view.len(), due),
        Question::Terms => is_number(u64::from(view.pool().len()), due),
    }
}

/// Whether all look-ups and counts give the same in both, and as many triples are held.
pub(super) fn is_same<V: GraphView, W: GraphView>(
    alloc: Global,
    view: &V,
    other: &W,
) -> Result<bool, Memory> {
    let mut first = Found::new(alloc);
    let mut second = Found::new(alloc);
    first.look_up_all(alloc, view)?;
    second.look_up_all(alloc, other)?;
    Ok(first.is_same(&second))
}
