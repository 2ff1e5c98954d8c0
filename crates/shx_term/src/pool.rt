ghost use Rattle.std.specs.Prelude.{◌≡◌, ◌<◌, ◌≤◌, Some, length, take, position, slice_get};
ghost use Rattle.std.specs.Prelude.{is_some, IfOk, IfErr, OnOk, OnErr};
ghost use Rattle.std.specs.List.{IsDistinct};
ghost use Rattle.shx_term.specs.TermOrder.{same_term, term_cmp};
ghost use Rattle.shx_term.specs.Pool.{Pooled, is_held, with_term, IsFullFor, HasRoomFor};
ghost use Rattle.shx_term.specs.TermKinds.{is_iri, is_node};
ghost use Rattle.shx_term.specs.Vocabulary.{HasVocabulary};
ghost use Rattle.shx_term.specs.IdOrder.{id_cmp, in_term_order, TermOrderLists};
ghost use Rattle.shx_term.specs.TripleOrder.{triple_cmp, in_triple_order, TripleOrderLists};

use crate::{Id, Term, TermKeys, Triple, cmp_terms};
use indexmap::IndexSet;
use std::alloc::{AllocError, AllocFailed, Global};
use std::cmp::Ordering;
use std::error::Error;
use std::fmt;
use std::marker::Model;

/// Why a term was not entered.
#[derive(Clone, Copy, Debug, PartialEq, Eq)]
pub enum PoolFault {
    /// The pool holds as many terms as its limit, and the term is none of them.
    Full,
    Memory,
}

impl fmt::Display for PoolFault {
    ghost use Rattle.std.specs.Prelude.{Some};
    ghost use Rattle.shx_term.specs.Pool.{fault_text};

    ghost output = { λ fault. Some (fault_text fault) };

    fn fmt<W: fmt::Write>(&self, f: &mut fmt::Formatter<W>) -> fmt::Result {
        match self {
            PoolFault::Full => f.write_str("the pool is full"),
            PoolFault::Memory => f.write_str("out of memory"),
        }
    }
}

impl Error for PoolFault {}

impl From<AllocError> for PoolFault {
    ghost use Rattle.std.specs.Prelude.{◌≡◌};
    ghost use Rattle.shx_term.specs.declared.pool.PoolFault.{PoolFault};

    ghost from_gives = { λ _ fault. fault ≡ PoolFault.Memory };

    fn from(_: AllocError) -> Self {
        PoolFault::Memory
    }
}

impl<T: Drop> From<AllocFailed<T>> for PoolFault {
    ghost use Rattle.std.specs.Prelude.{◌≡◌};
    ghost use Rattle.shx_term.specs.declared.pool.PoolFault.{PoolFault};

    ghost from_gives = { λ _ fault. fault ≡ PoolFault.Memory };

    fn from(_: AllocFailed<T>) -> Self {
        PoolFault::Memory
    }
}

/// Distinct terms, each with a number, in the order in which they were first entered. A number keeps its term
/// for good.
pub struct Pool {
    terms: IndexSet<Term, TermKeys>,
    limit: u32,
    alloc: Global,
}

// A derived drop is no call: each place where one ends would split into one path for each of its parts.
impl Drop for Pool {
    fn drop(self) {
        let Pool {
            terms: _terms,
            limit: _limit,
            alloc: _alloc,
        } = self;
    }
}

impl Model for Pool {
    ghost use Rattle.std.specs.Prelude.{ℕ, ◌<◌, ◌≤◌, ◌^◌, length};
    ghost use Rattle.shx_term.specs.Pool.{Pooled, IsPool};

    ghost Value = { Pooled };

    ghost view = { λ a. record { terms = a.terms.keys; limit = a.limit } };

    ghost invariant = { λ a. IsPool a.terms.keys a.limit };
}

impl Pool {
    /// A pool of these terms.
    pub(crate) fn from_terms(alloc: Global, terms: IndexSet<Term, TermKeys>, limit: u32) -> Pool
        requires within { length terms.keys ≤ limit }
        requires vocabulary { HasVocabulary terms.keys }
        ensures { result ≡ record { terms = terms.keys; limit = limit } }
    {
        Pool {
            terms,
            limit,
            alloc,
        }
    }

    /// The hash of its terms, for a later pool. It takes no memory.
    pub fn keys(&self) -> TermKeys {
        *self.terms.hasher()
    }

    /// The number of a term, or `None` where it is not held. It takes no memory, and one look-up by hash.
    pub fn find(&self, term: &Term) -> Option<Id>
        ensures place { result ≡ position (same_term term.now) self.now.terms }
        ensures held { is_some result ≡ is_held self.now.terms term.now }
    {
        let index = self.terms.get_index_of(term)?;
        Some(index as u32)
    }

    /// The term of a number. It takes no memory, and constant time.
    pub fn term(&self, id: Id) -> &Term
        requires { id < length self.now.terms }
        ensures { slice_get self.now.terms id ≡ Some result.now }
    {
        &self.terms.as_slice()[id as usize]
    }

    /// Whether the number has a term, and that is an IRI. It takes no memory.
    pub fn is_iri(&self, id: Id) -> bool
        ensures { result ≡ is_iri (slice_get self.now.terms id) }
    {
        if id >= self.len() {
            return false;
        }
        match self.term(id) {
            Term::Iri(_) => true,
            Term::Blank(_) => false,
            Term::Lit(_) => false,
        }
    }

    /// Whether the number has a term, and that is an IRI or a blank node. It takes no memory.
    pub fn is_iri_or_blank(&self, id: Id) -> bool
        ensures { result ≡ is_node self.now.terms id }
    {
        if id >= self.len() {
            return false;
        }
        match self.term(id) {
            Term::Iri(_) => true,
            Term::Blank(_) => true,
            Term::Lit(_) => false,
        }
    }

    /// How many terms are held. The terms are distinct, and begin with the vocabulary.
    pub fn len(&self) -> u32
        ensures count { result ≡ length self.now.terms }
        ensures distinct { IsDistinct same_term self.now.terms }
        ensures vocabulary { HasVocabulary self.now.terms }
        ensures within { result ≤ self.now.limit }
    {
        self.terms.len() as u32
    }

    /// How many terms can be held.
    pub fn limit(&self) -> u32
        ensures { result ≡ self.now.limit }
    {
        self.limit
    }

    /// The number of a term, which is added behind the others where it is not held. A term that is held takes
    /// one look-up by hash, and no memory; a new one takes two, and memory for a copy.
    pub fn enter(&mut self, term: &Term) -> Result<Id, PoolFault>
        ensures limit { self.new.limit ≡ self.old.limit }
        ensures entered { OnOk result (self.new.terms ≡ with_term self.old.terms term.now) }
        ensures found { IfOk result (λ id. position (same_term term.now) self.new.terms ≡ Some id) }
        ensures id { IfOk result (λ id. slice_get self.new.terms id ≡ Some term.now) }

        // A refused call changes nothing. `Full` comes exactly where the pool is full for the term, and
        // `Memory` only for a new term that there is room for.
        ensures refused { OnErr result (self.new.terms ≡ self.old.terms) }
        ensures full { IfErr result (λ fault. fault ≡ PoolFault.Full → IsFullFor self.old term.now) }
        ensures memory { IfErr result (λ fault. fault ≡ PoolFault.Memory → HasRoomFor self.old term.now) }
        ensures room { OnOk result (IsFullFor self.old term.now → ⊥) }
    {
        if let Some(id) = self.find(term) {
            return Ok(id);
        }
        if self.len() >= self.limit {
            return Err(PoolFault::Full);
        }
        let copy = term.copy(self.alloc)?;
        let (index, _) = self.terms.insert_full(copy)?;
        Ok(index as u32)
    }

    /// As `enter`, for a term that is given up, and dropped where it is refused: one look-up by hash, and no
    /// memory for a copy.
    pub fn enter_own(&mut self, term: Term) -> Result<Id, PoolFault>
        ensures limit { self.new.limit ≡ self.old.limit }
        ensures entered { OnOk result (self.new.terms ≡ with_term self.old.terms term) }
        ensures found { IfOk result (λ id. position (same_term term) self.new.terms ≡ Some id) }
        ensures id { IfOk result (λ id. slice_get self.new.terms id ≡ Some term) }
        ensures refused { OnErr result (self.new.terms ≡ self.old.terms) }
        ensures full { IfErr result (λ fault. fault ≡ PoolFault.Full → IsFullFor self.old term) }
        ensures memory { IfErr result (λ fault. fault ≡ PoolFault.Memory → HasRoomFor self.old term) }
        ensures room { OnOk result (IsFullFor self.old term → ⊥) }
    {
        if self.len() >= self.limit {
            return self.find(&term).ok_or(PoolFault::Full);
        }
        let (index, _) = self.terms.insert_full(term)?;
        Ok(index as u32)
    }

    /// Forgets the terms from this number on, and keeps those before it. It takes no memory, and time linear
    /// in what it forgets.
    pub fn cut(&mut self, len: u32)
        requires vocabulary { 62 ≤ len }
        requires within { len ≤ length self.old.terms }
        ensures terms { self.new.terms ≡ take len self.old.terms }
        ensures limit { self.new.limit ≡ self.old.limit }
    {
        self.terms.truncate(len as usize);
    }

    /// Compares two numbers by their terms. It takes no memory, and constant time where they are the same.
    pub fn cmp_ids(&self, a: Id, b: Id) -> Ordering
        ensures { result ≡ id_cmp self.now.terms a b }
    {
        if a == b {
            return Ordering::Equal;
        }
        let by_term = match (
            self.terms.get_index(a as usize),
            self.terms.get_index(b as usize),
        ) {
            (None, None) => Ordering::Equal,
            (None, Some(_)) => Ordering::Less,
            (Some(_), None) => Ordering::Greater,
            (Some(x), Some(y)) => cmp_terms(x, y),
        };
        by_term.then(a.cmp(&b))
    }

    /// Compares two triples: by subject, then by predicate, then by object, each by its term. It takes no
    /// memory.
    pub fn cmp_triples(&self, a: &Triple, b: &Triple) -> Ordering
        ensures { result ≡ triple_cmp self.now.terms a.now b.now }
    {
        match self.cmp_ids(a.s, b.s) {
            Ordering::Equal => match self.cmp_ids(a.p, b.p) {
                Ordering::Equal => self.cmp_ids(a.o, b.o),
                by_predicate => by_predicate,
            },
            by_subject => by_subject,
        }
    }

    /// The numbers in the order of their terms, each once. It takes no memory, and time `O(n log n)` in their
    /// number.
    pub fn in_order(&self, mut ids: Vec<Id>) -> Vec<Id>
        ensures { result.items ≡ in_term_order self.now.terms ids.items }
    {
        if ids.len() < 2 {
            return ids;
        }
        ids.sort_unstable_by(|a, b| self.cmp_ids(*a, *b));
        ids.dedup();
        ids
    }

    /// The triples in order of subject, predicate and object, each once. It takes no memory, and time `O(n
    /// log n)` in their number.
    pub fn triples_in_order(&self, mut triples: Vec<Triple>) -> Vec<Triple>
        ensures { result.items ≡ in_triple_order self.now.terms triples.items }
    {
        if triples.len() < 2 {
            return triples;
        }
        triples.sort_unstable_by(|a, b| self.cmp_triples(a, b));
        triples.dedup();
        triples
    }
}

/// What is in term order is the one list of these numbers, or triples, that goes up in the order and has each
/// once.
pub fn term_order_lists()
    ensures ids { TermOrderLists }
    ensures triples { TripleOrderLists }
{}
