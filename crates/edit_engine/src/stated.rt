//! The terms of triples: those that are held, and those that are new.
ghost use Rattle.std.specs.Prelude.{◌≡◌, ◌≤◌, length, map, nat_le, Some, ◌∷◌, [], ◌++◌, All, IfOk, OnOk};
ghost use Rattle.shx_term.specs.Pool.{with_term, with_terms};
ghost use Rattle.shx_term.specs.TripleTerms.{number_in, numbered, numbered_all, terms_of};
ghost use Rattle.shx_term.specs.ValidTriples.{IsNotWide, IsValidTermTriple};
ghost use Rattle.graph_view.specs.Valid.{IsValidView};
ghost use Rattle.edit_engine.specs.Applied.{HasMoreTerms};
ghost use Rattle.edit_engine.specs.inner.Stated.{HasNumbers, IsFound, found_triple};

use graph_view::{GraphEdit, GraphView};
use indexmap::IndexSet;
use shx_term::{Id, Memory, Pool, PoolFault, Term, TermKeys, TermTriple, Triple};
use std::alloc::{AllocError, Global};

/// The numbers of those terms of a triple that are held.
#[derive(Clone, Copy, Debug, PartialEq, Eq)]
pub(crate) struct HeldTerms {
    pub(crate) s: Option<Id>,
    pub(crate) p: Option<Id>,
    pub(crate) o: Option<Id>,
}

/// Looks up the terms of a triple. It takes no memory.
pub(crate) fn find(pool: &Pool, stated: &TermTriple) -> HeldTerms
    ensures { IsFound pool.now.terms stated.now result }
{
    HeldTerms {
        s: pool.find(&stated.s),
        p: pool.find(&stated.p),
        o: pool.find(&stated.o),
    }
}

impl HeldTerms {
    /// The triple over the numbers of its terms, where all are held.
    pub(crate) fn triple(&self) -> Option<Triple>
        ensures { result ≡ found_triple self.now }
    {
        let (s, p, o) = (self.s?, self.p?, self.o?);
        Some(Triple { s, p, o })
    }
}

/// The triples over the numbers of their terms, all of which are held.
pub(crate) fn numbers_of(
    alloc: Global,
    pool: &Pool,
    triples: &[TermTriple],
) -> Result<Vec<Triple>, Memory>
    requires { All (HasNumbers pool.now.terms) triples.now }
    ensures { IfOk result (λ found. found.items ≡ numbered_all pool.now.terms triples.now) }
{
    let mut found = Vec::with_capacity(alloc, triples.len())?;
    for stated in triples {
        match find(pool, stated).triple() {
            Some(triple) => found.push(triple)?,
            None => unreachable!(),
        }
    }
    Ok(found)
}

/// Whether the pool has room for the new terms of triples, each of which is new once. It takes memory only
/// where there might be too few places.
pub(crate) fn has_room_for_terms(
    alloc: Global,
    pool: &Pool,
    triples: &[TermTriple],
) -> Result<bool, Memory>
    ensures { IfOk result (λ room. room
        ≡ nat_le (length (with_terms pool.now.terms (terms_of triples.now))) pool.now.limit) }
{
    let left = (pool.limit() - pool.len()) as usize;
    if triples.len() <= left / 3 {
        return Ok(true);
    }
    Ok(new_terms(alloc, pool, triples)?.len() <= left)
}

// The terms of triples that are not held.
fn new_terms<'a>(
    alloc: Global,
    pool: &Pool,
    triples: &'a [TermTriple],
) -> Result<IndexSet<&'a Term, TermKeys>, Memory>
    ensures { IfOk result (λ new. with_terms pool.now.terms (terms_of triples.now)
        ≡ pool.now.terms ++ map (λ term. term.now) new.keys) }
{
    let mut new = IndexSet::with_hasher(alloc, pool.keys());
    for stated in triples {
        note_new(pool, &mut new, &stated.s)?;
        note_new(pool, &mut new, &stated.p)?;
        note_new(pool, &mut new, &stated.o)?;
    }
    Ok(new)
}

// Notes a term that is not held.
fn note_new<'a>(
    pool: &Pool,
    new: &mut IndexSet<&'a Term, TermKeys>,
    term: &'a Term,
) -> Result<(), Memory>
    ensures { OnOk result (pool.now.terms ++ map (λ term. term.now) new.new.keys
        ≡ with_term (pool.now.terms ++ map (λ term. term.now) new.old.keys) term.now) }
{
    if pool.find(term).is_none() {
        new.insert(term)?;
    }
    Ok(())
}

/// The triples over the numbers of their terms; those that are new are entered, for which there is room.
pub(crate) fn enter_all<E: GraphEdit>(
    alloc: Global,
    graph: &mut E,
    triples: &[TermTriple],
) -> Result<Vec<Triple>, Memory>
    requires room { length (with_terms (E.GraphView.graph graph.old).terms (terms_of triples.now))
        ≤ E.GraphView.term_limit graph.old }
    ensures terms { OnOk result ((E.GraphView.graph graph.new).terms
        ≡ with_terms (E.GraphView.graph graph.old).terms (terms_of triples.now)) }
    ensures triples { IfOk result (λ found. found.items
        ≡ numbered_all (E.GraphView.graph graph.new).terms triples.now) }
    ensures more { HasMoreTerms (terms_of triples.now) (E.GraphView.graph graph.old)
        (E.GraphView.graph graph.new) }
    ensures valid { IsValidView (E.GraphView.graph graph.old) → All IsValidTermTriple triples.now
        → IsValidView (E.GraphView.graph graph.new) }
    ensures term_limit { E.GraphView.term_limit graph.new ≡ E.GraphView.term_limit graph.old }
    ensures triple_limit { E.triple_limit graph.new ≡ E.triple_limit graph.old }
{
    let mut found = Vec::with_capacity(alloc, triples.len())?;
    for stated in triples {
        let triple = enter_terms(graph, stated)?;
        found.push(triple)?;
    }
    Ok(found)
}

// The triple over the numbers of its terms; those that are new are entered, for which there is room.
fn enter_terms<E: GraphEdit>(graph: &mut E, stated: &TermTriple) -> Result<Triple, Memory>
    requires room { length (with_terms (E.GraphView.graph graph.old).terms (terms_of (stated.now ∷ [])))
        ≤ E.GraphView.term_limit graph.old }
    ensures terms { OnOk result ((E.GraphView.graph graph.new).terms
        ≡ with_terms (E.GraphView.graph graph.old).terms (terms_of (stated.now ∷ []))) }
    ensures triple { IfOk result (λ triple.
        numbered (E.GraphView.graph graph.new).terms stated.now ≡ Some triple) }
    ensures more { HasMoreTerms (terms_of (stated.now ∷ [])) (E.GraphView.graph graph.old)
        (E.GraphView.graph graph.new) }
    ensures valid { IsValidView (E.GraphView.graph graph.old) → IsValidTermTriple stated.now
        → IsValidView (E.GraphView.graph graph.new) }
    ensures term_limit { E.GraphView.term_limit graph.new ≡ E.GraphView.term_limit graph.old }
    ensures triple_limit { E.triple_limit graph.new ≡ E.triple_limit graph.old }
{
    let s = number(graph, &stated.s)?;
    let p = number(graph, &stated.p)?;
    let o = number(graph, &stated.o)?;
    Ok(Triple { s, p, o })
}

// The number of a term, which is entered where it is new; there is room for it.
fn number<E: GraphEdit>(graph: &mut E, term: &Term) -> Result<Id, Memory>
    requires room { length (with_term (E.GraphView.graph graph.old).terms term.now)
        ≤ E.GraphView.term_limit graph.old }
    ensures terms { OnOk result ((E.GraphView.graph graph.new).terms
        ≡ with_term (E.GraphView.graph graph.old).terms term.now) }
    ensures number { IfOk result (λ id. number_in (E.GraphView.graph graph.new).terms term.now ≡ Some id) }
    ensures more { HasMoreTerms (term.now ∷ []) (E.GraphView.graph graph.old)
        (E.GraphView.graph graph.new) }
    ensures valid { IsValidView (E.GraphView.graph graph.old) → IsNotWide term.now
        → IsValidView (E.GraphView.graph graph.new) }
    ensures term_limit { E.GraphView.term_limit graph.new ≡ E.GraphView.term_limit graph.old }
    ensures triple_limit { E.triple_limit graph.new ≡ E.triple_limit graph.old }
{
    match graph.enter(term) {
        Ok(id) => Ok(id),
        Err(PoolFault::Full) => unreachable!(),
        Err(PoolFault::Memory) => Err(AllocError),
    }
}
