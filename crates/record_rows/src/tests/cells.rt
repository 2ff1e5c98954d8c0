//! What rows call steps and questions, and readers, keys and triples as rows say them.
use comp_core::Pair;
use graph_view::{Key, Reads};
use read_records::Reader;
use row_tools::{RowFault, cut, in_three, number};
use shx_term::{Id, Triple};
use std::alloc::Global;

/// What a step does, or what a question asks for.
#[derive(Clone, Copy)]
pub(super) enum Verb {
    Stage,
    Load,
    Remove,
    Commit,
    Drop,
    Mask,
    Find,
    Reads,
    Touched,
    Changed,
    Rows,
    All,
    Len,
    Pairs,
}

const VERBS: [(&str, Verb); 14] = [
    ("stage", Verb::Stage),
    ("load", Verb::Load),
    ("remove", Verb::Remove),
    ("commit", Verb::Commit),
    ("drop", Verb::Drop),
    ("mask", Verb::Mask),
    ("find", Verb::Find),
    ("reads", Verb::Reads),
    ("touched", Verb::Touched),
    ("changed", Verb::Changed),
    ("rows", Verb::Rows),
    ("all", Verb::All),
    ("len", Verb::Len),
    ("pairs", Verb::Pairs),
];

/// The first word of a step or a question, and what stands behind it.
pub(super) fn verb_of(step: &str) -> Result<(Verb, &str), RowFault> {
    let (word, of) = step.split_once(' ').unwrap_or((step, ""));
    for (name, verb) in &VERBS {
        if *name == word {
            return Ok((*verb, of));
        }
    }
    Err(RowFault::Unread)
}

/// The target of a shape by its number, or a pair by those of its shape and of its node.
pub(super) fn reader(word: &str) -> Result<Reader, RowFault> {
    match word.split_once('/') {
        Some((shape, node)) => Ok(Reader::OfPair(Pair {
            shape: number(shape)?,
            node: number(node)?,
        })),
        None => Ok(Reader::OfTarget(number(word)?)),
    }
}

pub(super) fn pair(word: &str) -> Result<Pair, RowFault> {
    match reader(word)? {
        Reader::OfPair(pair) => Ok(pair),
        Reader::OfTarget(_) => Err(RowFault::Unread),
    }
}

/// Pairs, which are told apart by spaces.
pub(super) fn pairs(alloc: Global, words: &str) -> Result<Vec<Pair>, RowFault> {
    let mut all = Vec::new(alloc);
    for word in words.split(' ') {
        if !word.is_empty() {
            all.push(pair(word)?)?;
        }
    }
    Ok(all)
}

/// Whether these are the readers that the words say, in this order.
pub(super) fn are_readers(found: &[Reader], words: &str) -> Result<bool, RowFault> {
    let mut rest = words;
    for at in found {
        let (word, behind) = rest.split_once(' ').unwrap_or((rest, ""));
        if word.is_empty() || reader(word)? != *at {
            return Ok(false);
        }
        rest = behind;
    }
    Ok(rest.is_empty())
}

/// Whether these are the pairs that the words say, in this order.
pub(super) fn are_pairs(found: &[Pair], words: &str) -> Result<bool, RowFault> {
    let mut rest = words;
    for at in found {
        let (word, behind) = rest.split_once(' ').unwrap_or((rest, ""));
        if word.is_empty() || pair(word)? != *at {
            return Ok(false);
        }
        rest = behind;
    }
    Ok(rest.is_empty())
}

pub(super) fn triple(word: &str) -> Result<Triple, RowFault> {
    let (s, p, o) = in_three(word, ".")?;
    Ok(Triple {
        s: number(s)?,
        p: number(p)?,
        o: number(o)?,
    })
}

/// Adds triples, which are told apart by spaces.
fn add_triples(words: &str, all: &mut Vec<Triple>) -> Result<(), RowFault> {
    for word in words.split(' ') {
        if !word.is_empty() {
            all.push(triple(word)?)?;
        }
    }
    Ok(())
}

/// What a change adds and removes.
#[derive(Drop)]
pub(super) struct Change {
    pub(super) added: Vec<Triple>,
    pub(super) removed: Vec<Triple>,
}

impl Change {
    /// What it adds stands before a bar, and what it removes behind it.
    pub(super) fn of(alloc: Global, text: &str) -> Result<Change, RowFault> {
        let mut change = Change {
            added: Vec::new(alloc),
            removed: Vec::new(alloc),
        };
        change.add(text)?;
        Ok(change)
    }

    fn add(&mut self, text: &str) -> Result<(), RowFault> {
        let (added, removed) = cut(text, "|")?;
        add_triples(added, &mut self.added)?;
        add_triples(removed, &mut self.removed)
    }
}

// A number, or a line for what is left open.
fn part(word: &str) -> Result<Option<Id>, RowFault> {
    if word == "_" {
        Ok(None)
    } else {
        Ok(Some(number(word)?))
    }
}

/// The key of a triple in which a line stands for what the key leaves open, or that of the answer of a pair.
fn key(word: &str) -> Result<Key, RowFault> {
    if let Some((shape, node)) = word.split_once('/') {
        return Ok(Key::Answer(number(shape)?, number(node)?));
    }
    let (s, p, o) = in_three(word, ".")?;
    match (part(s)?, part(p)?, part(o)?) {
        (None, Some(p), None) => Ok(Key::Predicate(p)),
        (Some(s), None, None) => Ok(Key::Subject(s)),
        (None, Some(p), Some(o)) => Ok(Key::In(p, o)),
        (Some(s), Some(p), None) => Ok(Key::Out(s, p)),
        _ => Err(RowFault::Unread),
    }
}

pub(super) fn reads(alloc: Global, words: &str) -> Result<Reads, RowFault> {
    let mut all = Reads::new(alloc);
    for word in words.split(' ') {
        if !word.is_empty() {
            all.add(key(word)?)?;
        }
    }
    Ok(all)
}

/// Whether these are the keys that the words say, each once, and no others.
pub(super) fn are_said(found: &Reads, words: &str) -> Result<bool, RowFault> {
    let mut said = 0;
    for word in words.split(' ') {
        if !word.is_empty() {
            if !found.has(&key(word)?) {
                return Ok(false);
            }
            said = u64::saturating_add(said, 1);
        }
    }
    Ok(said == found.len() as u64)
}
