mod rows;

use super::{holds, key, order_name, said};
use row_tools::{RowFault, all_blocks_met, cut, in_three, iri, number, term};
use shx_term::vocabulary::*;
use shx_term::{Id, Pool, PoolFault, Triple};
use std::alloc::Global;
use std::cmp::Ordering;
use std::test::Fail;

// Fails with the first row whose number is not that of its IRI in the vocabulary.
fn all_are_numbered(alloc: Global, rows: &[(Id, &str)]) -> Result<(), Fail> {
    let pool = Pool::with_vocabulary(alloc, VOCABULARY_LEN, key())?;
    for (id, name) in rows {
        if pool.find(&iri(alloc, name)?) != Some(*id) {
            return Err(Fail::new(*name));
        }
    }
    Ok(())
}

#[test]
fn constants_are_their_terms(rt: HostRuntime) -> Result<(), Fail> {
    let rows = vocabulary_rows();
    holds(Ok(rows.len() == 62))?;
    all_are_numbered(rt.alloc(), rows)
}

const NAMED: [(Id, &str); 3] = [
    (RDF_NIL, "http://www.w3.org/1999/02/22-rdf-syntax-ns#nil"),
    (RDFS_CLASS, "http://www.w3.org/2000/01/rdf-schema#Class"),
    (SH_IN, "http://www.w3.org/ns/shacl#in"),
];

#[test]
fn named_constants_are_their_terms(rt: HostRuntime) -> Result<(), Fail> {
    all_are_numbered(rt.alloc(), &NAMED)
}

// The number of a term by its word, or the number itself.
fn id(alloc: Global, pool: &Pool, word: &str) -> Result<Id, RowFault> {
    if let Ok(id) = number(word) {
        return Ok(id);
    }
    pool.find(&term(alloc, word)?).ok_or(RowFault::Unread)
}

fn ids(alloc: Global, pool: &Pool, words: &str) -> Result<Vec<Id>, RowFault> {
    let mut ids = Vec::new(alloc);
    for word in words.split(' ') {
        ids.push(id(alloc, pool, word)?)?;
    }
    Ok(ids)
}

fn triple(alloc: Global, pool: &Pool, words: &str) -> Result<Triple, RowFault> {
    match *ids(alloc, pool, words)?.as_slice() {
        [s, p, o] => Ok(Triple { s, p, o }),
        _ => Err(RowFault::Unread),
    }
}

fn triples(alloc: Global, pool: &Pool, words: &str) -> Result<Vec<Triple>, RowFault> {
    let mut triples = Vec::new(alloc);
    for words in words.split(", ") {
        triples.push(triple(alloc, pool, words)?)?;
    }
    Ok(triples)
}

fn finds(alloc: Global, pool: &Pool, word: &str, due: &str) -> Result<bool, RowFault> {
    match pool.find(&term(alloc, word)?) {
        Some(id) => Ok(id == number(due)?),
        None => Ok(due == "none"),
    }
}

fn has_term(alloc: Global, pool: &Pool, id: &str, due: &str) -> Result<bool, RowFault> {
    let id = number(id)?;
    let due = term(alloc, due)?;
    Ok(id < pool.len() && *pool.term(id) == due)
}

// Whether a term that was entered got the number that is due, is found under it, and is its term.
fn is_entered(
    alloc: Global,
    pool: &Pool,
    entered: Result<Id, PoolFault>,
    (word, due): (&str, &str),
) -> Result<bool, RowFault> {
    match entered {
        Ok(id) => Ok(
            id == number(due)?
                && finds(alloc, pool, word, due)?
                && has_term(alloc, pool, due, word)?,
        ),
        Err(PoolFault::Full) => Ok(due == "full"),
        Err(PoolFault::Memory) => Err(RowFault::Memory),
    }
}

fn enters(alloc: Global, pool: &mut Pool, word: &str, due: &str) -> Result<bool, RowFault> {
    let entered = pool.enter(&term(alloc, word)?);
    is_entered(alloc, pool, entered, (word, due))
}

fn enters_own(alloc: Global, pool: &mut Pool, word: &str, due: &str) -> Result<bool, RowFault> {
    let entered = pool.enter_own(term(alloc, word)?);
    is_entered(alloc, pool, entered, (word, due))
}

fn cuts(pool: &mut Pool, len: &str, due: &str) -> Result<bool, RowFault> {
    let len = number(len)?;
    if len < VOCABULARY_LEN || len > pool.len() {
        return Err(RowFault::Unread);
    }
    pool.cut(len);
    Ok(due == "done")
}

fn compares(alloc: Global, pool: &Pool, words: &str, due: &str) -> Result<bool, RowFault> {
    let (a, b) = cut(words, " ")?;
    let order = pool.cmp_ids(id(alloc, pool, a)?, id(alloc, pool, b)?);
    Ok(order_name(order) == due)
}

fn compares_triples(alloc: Global, pool: &Pool, words: &str, due: &str) -> Result<bool, RowFault> {
    let (a, b) = cut(words, ", ")?;
    let order = pool.cmp_triples(&triple(alloc, pool, a)?, &triple(alloc, pool, b)?);
    Ok(order_name(order) == due)
}

fn orders(alloc: Global, pool: &Pool, words: &str, due: &str) -> Result<bool, RowFault> {
    let due = ids(alloc, pool, due)?;
    let found = pool.in_order(ids(alloc, pool, words)?);
    Ok(found.as_slice() == due.as_slice())
}

fn orders_triples(alloc: Global, pool: &Pool, words: &str, due: &str) -> Result<bool, RowFault> {
    let due = triples(alloc, pool, due)?;
    let found = pool.triples_in_order(triples(alloc, pool, words)?);
    Ok(found.as_slice() == due.as_slice())
}

// Whether a pool that is asked answers as is due.
fn answers(
    alloc: Global,
    pool: &Pool,
    (what, of): (&str, &str),
    due: &str,
) -> Result<bool, RowFault> {
    match what {
        "find" => finds(alloc, pool, of, due),
        "term" => has_term(alloc, pool, of, due),
        "is_iri" => Ok(said(pool.is_iri(id(alloc, pool, of)?)) == due),
        "is_iri_or_blank" => Ok(said(pool.is_iri_or_blank(id(alloc, pool, of)?)) == due),
        "compare" => compares(alloc, pool, of, due),
        "compare_triples" => compares_triples(alloc, pool, of, due),
        "order" => orders(alloc, pool, of, due),
        "order_triples" => orders_triples(alloc, pool, of, due),
        _ => Err(RowFault::Unread),
    }
}

// Whether a step has the answer that is due. One that changes the pool does so.
fn goes_on(alloc: Global, pool: &mut Pool, step: &str) -> Result<bool, RowFault> {
    let (step, due) = cut(step, " → ")?;
    match step {
        "len" => Ok(pool.len() == number(due)?),
        "limit" => Ok(pool.limit() == number(due)?),
        _ => match cut(step, " ")? {
            ("enter", word) => enters(alloc, pool, word, due),
            ("enter_own", word) => enters_own(alloc, pool, word, due),
            ("cut", len) => cuts(pool, len, due),
            question => answers(alloc, pool, question, due),
        },
    }
}

// Whether a pool goes through the steps of a block as is due.
fn goes_as_said(alloc: Global, block: &str) -> Result<bool, RowFault> {
    let (limit, steps) = cut(block, "\n")?;
    let limit = number(limit)?;
    if limit < VOCABULARY_LEN {
        return Err(RowFault::Unread);
    }
    let mut pool = Pool::with_vocabulary(alloc, limit, key())?;
    for step in steps.lines() {
        if !goes_on(alloc, &mut pool, step)? {
            return Ok(false);
        }
    }
    Ok(true)
}

#[test]
fn pools_answer_step_by_step(rt: HostRuntime) -> Result<(), Fail> {
    all_blocks_met(rt.alloc(), rows::STEPS, goes_as_said)
}

#[test]
fn pool_faults_have_a_text(rt: HostRuntime) -> Result<(), Fail> {
    let told = format!(in rt.alloc(); "{}, {}", PoolFault::Full, PoolFault::Memory)?;
    holds(Ok(told.as_str() == "the pool is full, out of memory"))
}

#[test]
fn triples_have_an_order_by_number() -> Result<(), Fail> {
    let (s, p, o) = (1, 2, 3);
    let t = Triple { s, p, o };
    holds(Ok(
        t < Triple { s: 2, p: 0, o: 0 }
            && t < Triple { s: 1, p: 3, o: 0 }
            && t < Triple { s: 1, p: 2, o: 4 }
            && t.cmp(&Triple { s, p, o }) == Ordering::Equal,
    ))
}
