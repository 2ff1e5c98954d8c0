//! What rows say: nodes, keys and graphs by letters.
use graph_view::{GraphEdit, GraphView, Key, ListGraph, Reads};
use row_tools::{RowFault, vocabulary_pool};
use shx_term::vocabulary::{
    RDF_TYPE, RDFS_SUB_CLASS_OF, SH_CLASS, SH_DATATYPE, SH_EQUALS, SH_FLAGS, SH_HAS_VALUE, SH_IN,
    SH_LANGUAGE_IN, SH_LESS_THAN, SH_LESS_THAN_OR_EQUALS, SH_MAX_COUNT, SH_MAX_EXCLUSIVE,
    SH_MAX_INCLUSIVE, SH_MAX_LENGTH, SH_MESSAGE, SH_MIN_COUNT, SH_PATH, SH_PATTERN, SH_XONE,
    VOCABULARY_LEN,
};
use shx_term::{Id, Triple};
use std::alloc::Global;

/// The number of a letter; `T` is `rdf:type`, and `C` is `rdfs:subClassOf`. The terms of the others stand in
/// the order of their letters, and their numbers do not.
pub(super) fn number(letter: u8) -> Result<Id, RowFault> {
    match letter {
        b'T' => Ok(RDF_TYPE),
        b'C' => Ok(RDFS_SUB_CLASS_OF),
        b'a' => Ok(SH_CLASS),
        b'b' => Ok(SH_DATATYPE),
        b'c' => Ok(SH_EQUALS),
        b'd' => Ok(SH_FLAGS),
        b'e' => Ok(SH_HAS_VALUE),
        b'f' => Ok(SH_IN),
        b'g' => Ok(SH_LANGUAGE_IN),
        b'h' => Ok(SH_LESS_THAN),
        b'i' => Ok(SH_LESS_THAN_OR_EQUALS),
        b'j' => Ok(SH_MAX_COUNT),
        b'k' => Ok(SH_MAX_EXCLUSIVE),
        b'l' => Ok(SH_MAX_INCLUSIVE),
        b'm' => Ok(SH_MAX_LENGTH),
        b'n' => Ok(SH_MESSAGE),
        b'o' => Ok(SH_MIN_COUNT),
        b'p' => Ok(SH_PATH),
        b'q' => Ok(SH_PATTERN),
        b'x' => Ok(SH_XONE),
        _ => Err(RowFault::Unread),
    }
}

/// The node of a letter.
pub(super) fn node(word: &str) -> Result<Id, RowFault> {
    match word.as_bytes() {
        [letter] => number(*letter),
        _ => Err(RowFault::Unread),
    }
}

/// Whether nodes have these letters, in order; `-` is for none.
pub(super) fn are_nodes(nodes: &[Id], letters: &str) -> bool {
    let letters = letters.trim_start_matches('-').as_bytes();
    let mut both = nodes.iter().zip(letters);
    nodes.len() == letters.len() && both.all(|(node, letter)| number(*letter) == Ok(*node))
}

/// Whether the answer of a row is `yes`, or `no`.
pub(super) fn is_said(is: bool, answer: &str) -> bool {
    answer == if is { "yes" } else { "no" }
}

fn key_of(word: &str) -> Result<Key, RowFault> {
    match word.as_bytes() {
        [b'?', p, o] => Ok(Key::In(number(*p)?, number(*o)?)),
        [s, p, b'?'] => Ok(Key::Out(number(*s)?, number(*p)?)),
        _ => Err(RowFault::Unread),
    }
}

/// The keys of a row.
pub(super) fn keys(alloc: Global, words: &str) -> Result<Reads, RowFault> {
    let mut reads = Reads::new(alloc);
    if words == "-" {
        return Ok(reads);
    }
    for word in words.split_whitespace() {
        reads.add(key_of(word)?)?;
    }
    Ok(reads)
}

fn triple_of(word: &str) -> Result<Triple, RowFault> {
    let [s, p, o] = word.as_bytes() else {
        return Err(RowFault::Unread);
    };
    let (s, p, o) = (number(*s)?, number(*p)?, number(*o)?);
    Ok(Triple { s, p, o })
}

fn insert(graph: &mut ListGraph, t: Triple) -> Result<(), RowFault> {
    let terms = graph.pool().len();
    if t.s >= terms || t.p >= terms || t.o >= terms || graph.insert(t) != Ok(true) {
        return Err(RowFault::Unread);
    }
    Ok(())
}

fn insert_all(graph: &mut ListGraph, words: &str) -> Result<(), RowFault> {
    if words == "-" {
        return Ok(());
    }
    for word in words.split_whitespace() {
        insert(graph, triple_of(word)?)?;
    }
    Ok(())
}

/// The graph of some triples, over the vocabulary alone.
pub(super) fn graph(alloc: Global, words: &str) -> Result<ListGraph, RowFault> {
    let pool = vocabulary_pool(alloc, VOCABULARY_LEN)?;
    let mut graph = ListGraph::new(alloc, pool, 100);
    insert_all(&mut graph, words)?;
    Ok(graph)
}
