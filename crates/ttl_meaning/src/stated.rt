ghost use Rattle.std.specs.Prelude.{◌≡◌, ℕ, ◌<◌, List, [], ◌∷◌, ◌++◌, length, Some, OnOk, IfOk, IfErr};
ghost use Rattle.std.specs.Prelude.{slice_get};
ghost use Rattle.shx_term.specs.declared.term.Term.{Term as term};
ghost use Rattle.shx_term.specs.declared.term.Term.TheVariants.{Iri};
ghost use Rattle.shx_term.specs.declared.triple.TermTriple.{TermTriple as term_triple};
ghost use Rattle.shx_term.specs.Pool.{with_terms};
ghost use Rattle.shx_term.specs.TripleTerms.{terms_of, numbered as numbered_in};
ghost use Rattle.ttl_meaning.specs.IsStated.{Bounds, IsStated, triple_of};
ghost use Rattle.ttl_meaning.specs.KeepsTerms.{KeepsTerms};
ghost use Rattle.ttl_meaning.specs.State.{Subject as a_subject, Of as of, subject_term};
ghost use Rattle.ttl_meaning.specs.inner.Placed.{IsContext, IsPlaced};

use crate::context::Context;
use crate::placed::Placed;
use shx_term::{Memory, Pool, PoolFault, Triple};
use std::alloc::{AllocError, Global};

/// Which limit was passed.
#[derive(Clone, Copy, Debug, PartialEq, Eq)]
pub enum Excess {
    Triples,
    Terms,
}

/// The triples that a text states, over the numbers of their terms. Behind a limit they are only counted.
#[derive(Drop)]
pub struct Stated {
    pub(crate) triples: Vec<Triple>,
    // How many triples there may be, and how many there are so far.
    pub(crate) most: u64,
    pub(crate) count: u64,
    pub(crate) excess: Option<Excess>,
}

impl Stated {
    // No triples, of at most so many.
    pub(crate) fn new(alloc: Global, most: u64, pool: &Pool) -> Stated
        ensures { (bounds : Bounds) → bounds.triples ≡ most → bounds.terms ≡ pool.now.limit
            → bounds.held ≡ pool.now.terms → IsStated bounds [] result pool.now }
    {
        Stated {
            triples: Vec::new(alloc),
            most,
            count: 0,
            excess: None,
        }
    }

    // The triples.
    pub(crate) fn into_triples(self) -> Vec<Triple>
        ensures { result ≡ self.triples }
    {
        self.triples
    }

    // One triple more, and the context in which it was stated, with the numbers of its terms. It takes a
    // look-up by hash for each term that has no number yet.
    pub(crate) fn add(
        &mut self,
        pool: &mut Pool,
        subject: Placed,
        verb: Placed,
        object: Placed,
    ) -> Result<Context, Memory>
        ensures keeps { KeepsTerms pool.old pool.new }
        ensures context { (s : a_subject) (iri : List ℕ) → IsPlaced pool.old.terms subject (subject_term s)
            → IsPlaced pool.old.terms verb (Iri iri)
            → IfOk result (λ context. IsContext pool.new.terms context (of s iri)) }
        ensures stated { (s p o : term) (bounds : Bounds) (triples : List term_triple)
            → IsPlaced pool.old.terms subject s → IsPlaced pool.old.terms verb p
            → IsPlaced pool.old.terms object o → IsStated bounds triples self.old pool.old
            → OnOk result (IsStated bounds (triples ++ (triple_of s p o ∷ [])) self.new pool.new) }
    {
        if self.count >= self.most {
            self.excess = Some(Excess::Triples);
            return Ok(Context::Of(subject, verb));
        }
        self.count += 1;
        if self.excess.is_some() {
            return Ok(Context::Of(subject, verb));
        }
        match numbered(pool, &subject, &verb, object) {
            Ok(triple) => {
                self.triples.push(triple)?;
                Ok(Context::Of(Placed::Id(triple.s), Placed::Id(triple.p)))
            }
            Err(PoolFault::Full) => {
                self.excess = Some(Excess::Terms);
                Ok(Context::Of(subject, verb))
            }
            Err(PoolFault::Memory) => Err(AllocError),
        }
    }
}

// A triple over the numbers of its terms, which are entered in turn.
fn numbered(
    pool: &mut Pool,
    subject: &Placed,
    verb: &Placed,
    object: Placed,
) -> Result<Triple, PoolFault>
    ensures keeps { KeepsTerms pool.old pool.new }
    ensures entered { (s p o : term) → IsPlaced pool.old.terms subject.now s
        → IsPlaced pool.old.terms verb.now p → IsPlaced pool.old.terms object o
        → OnOk result (pool.new.terms ≡ with_terms pool.old.terms (terms_of (triple_of s p o ∷ []))) }
    ensures triple { (s p o : term) → IsPlaced pool.old.terms subject.now s
        → IsPlaced pool.old.terms verb.now p → IsPlaced pool.old.terms object o
        → IfOk result (λ triple. numbered_in pool.new.terms (triple_of s p o) ≡ Some triple) }
    ensures places { (s p : term) → IsPlaced pool.old.terms subject.now s
        → IsPlaced pool.old.terms verb.now p
        → IfOk result (λ triple. (slice_get pool.new.terms triple.s ≡ Some s)
        × (slice_get pool.new.terms triple.p ≡ Some p)) }
    ensures full { (s p o : term) → IsPlaced pool.old.terms subject.now s
        → IsPlaced pool.old.terms verb.now p → IsPlaced pool.old.terms object o
        → IfErr result (λ fault. fault ≡ PoolFault.Full
        → pool.old.limit < length (with_terms pool.old.terms (terms_of (triple_of s p o ∷ [])))) }
{
    let s = subject.number(pool)?;
    let p = verb.number(pool)?;
    let o = object.into_number(pool)?;
    Ok(Triple { s, p, o })
}
