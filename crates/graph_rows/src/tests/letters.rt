//! Terms by letters, triples by words of three letters, keys by words with `?` for what is looked up, or with
//! `!` before the numbers of a pair.
use due_view::is_known_triple;
use graph_view::{GraphEdit, GraphView, Key, ListGraph};
use row_tools::{RowFault, term, vocabulary_pool};
use shx_term::vocabulary::VOCABULARY_LEN;
use shx_term::{Id, Triple};
use std::alloc::Global;
use triple_store::Store;

// Terms of every kind, those of the letters in the order of their numbers. They are entered against their own
// order: the higher the number, the lower the term.
const TERMS: &str = "'5' '5'^^integer '5'@en shapes#1 data#1 shapes:x data:x \
e:q e:p e:d e:c e:b e:a";

/// The first number behind those of the letters.
pub(super) const LETTERS_END: Id = 75;

// The letters, in the order of their numbers.
const LETTERS: &str = "xyztusrqpdcba";

/// The number of a letter.
pub(super) fn number(letter: u8) -> Result<Id, RowFault> {
    let mut id = VOCABULARY_LEN;
    for other in LETTERS.bytes() {
        if other == letter {
            return Ok(id);
        }
        id = id.saturating_add(1);
    }
    Err(RowFault::Unread)
}

/// The triple of a word.
pub(super) fn triple_of(word: &str) -> Result<Triple, RowFault> {
    match word.as_bytes() {
        [s, p, o] => Ok(Triple {
            s: number(*s)?,
            p: number(*p)?,
            o: number(*o)?,
        }),
        _ => Err(RowFault::Unread),
    }
}

/// The key of a word with a `?`, or with a `!` that of what was found of a pair.
pub(super) fn key_of(word: &str) -> Result<Key, RowFault> {
    match word.as_bytes() {
        [b'!', shape, node] => Ok(Key::Answer(number(*shape)?, number(*node)?)),
        [b'?', p, b'?'] => Ok(Key::Predicate(number(*p)?)),
        [s, b'?', b'?'] => Ok(Key::Subject(number(*s)?)),
        [b'?', p, o] => Ok(Key::In(number(*p)?, number(*o)?)),
        [s, p, b'?'] => Ok(Key::Out(number(*s)?, number(*p)?)),
        _ => Err(RowFault::Unread),
    }
}

// Enters the terms of the letters.
fn enter_letters(alloc: Global, graph: &mut ListGraph) -> Result<(), RowFault> {
    for word in TERMS.split_whitespace() {
        graph.enter(&term(alloc, word)?)?;
    }
    // They are as many terms, and so their numbers follow one another.
    if graph.pool().len() != LETTERS_END {
        return Err(RowFault::Unread);
    }
    Ok(())
}

fn insert_all(graph: &mut ListGraph, words: &str) -> Result<(), RowFault> {
    for word in words.split_whitespace() {
        let t = triple_of(word)?;
        if !is_known_triple(graph, &t) || graph.insert(t) != Ok(true) {
            return Err(RowFault::Unread);
        }
    }
    Ok(())
}

fn fill(alloc: Global, graph: &mut ListGraph, words: &str) -> Result<(), RowFault> {
    enter_letters(alloc, graph)?;
    insert_all(graph, words)
}

/// The graph of some words over the terms of all letters, that may hold so many terms and triples.
pub(super) fn graph_of(
    alloc: Global,
    terms: Id,
    limit: u64,
    words: &str,
) -> Result<ListGraph, RowFault> {
    if terms < LETTERS_END {
        return Err(RowFault::Unread);
    }
    let mut graph = ListGraph::new(alloc, vocabulary_pool(alloc, terms)?, limit);
    fill(alloc, &mut graph, words)?;
    Ok(graph)
}

/// The store of a graph, made of all its triples at once.
pub(super) fn store_from(alloc: Global, graph: ListGraph) -> Result<Store, RowFault> {
    let triples = graph.triples().to_vec(alloc)?;
    // Its numbers have terms.
    let _ = graph.pool();
    let limit = graph.limit();
    Ok(Store::from_triples(alloc, graph.into_pool(), triples, limit)?)
}
