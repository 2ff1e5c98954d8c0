ghost use Rattle.std.specs.Prelude.{◌≡◌, IfOk};

use crate::{Memory, Term};
use std::alloc::Global;
use std::hash::{Hash, Hasher};

/// The number of a term in a pool.
pub type Id = u32;

/// A triple of numbers: subject, predicate and object. Its order is that of the numbers, for sets of triples;
/// `Pool::cmp_triples` has the order by terms.
#[derive(Clone, Copy, Debug, PartialOrd, Ord)]
pub struct Triple {
    pub s: Id,
    pub p: Id,
    pub o: Id,
}

/// A triple of terms: subject, predicate and object.
#[derive(Debug, Drop)]
pub struct TermTriple {
    pub s: Term,
    pub p: Term,
    pub o: Term,
}

impl PartialEq for Triple {
    ghost use Rattle.std.specs.Cmp;
    ghost use Rattle.shx_term.specs.Triple.{same_triple};
    ghost use Rattle.shx_term.specs.inner.TripleLaws.{same_triple_equiv};

    ghost eq = { same_triple };

    ghost laws = { Cmp.partial_equiv_from_equiv same_triple_equiv };

    fn eq(&self, other: &Self) -> bool {
        self.s == other.s && self.p == other.p && self.o == other.o
    }
}

impl Eq for Triple {
    ghost use Rattle.shx_term.specs.inner.TripleLaws.{same_triple_equiv};

    ghost laws = { same_triple_equiv };
}

impl Hash for Triple {
    ghost use Rattle.std.proofs.Common.{ap};
    ghost use Rattle.shx_term.specs.Triple.{hashed_triple};
    ghost use Rattle.shx_term.specs.inner.TripleLaws.{same_triple_exact};

    ghost hash_input = { hashed_triple };

    ghost respects_eq = { λ a b h. ap hashed_triple (same_triple_exact a b h) };

    fn hash<H: Hasher>(&self, state: &mut H) {
        self.s.hash(state);
        self.p.hash(state);
        self.o.hash(state);
    }
}

impl TermTriple {
    /// An equal triple of its own.
    pub fn copy(&self, alloc: Global) -> Result<TermTriple, Memory>
        ensures { IfOk result (λ copy. copy ≡ self.now) }
    {
        Ok(TermTriple {
            s: self.s.copy(alloc)?,
            p: self.p.copy(alloc)?,
            o: self.o.copy(alloc)?,
        })
    }
}

impl PartialEq for TermTriple {
    ghost use Rattle.std.specs.Cmp;
    ghost use Rattle.shx_term.specs.TripleTerms.{same_term_triple};
    ghost use Rattle.shx_term.specs.inner.TripleLaws.{same_term_triple_equiv};

    ghost eq = { same_term_triple };

    ghost laws = { Cmp.partial_equiv_from_equiv same_term_triple_equiv };

    fn eq(&self, other: &Self) -> bool {
        self.s == other.s && self.p == other.p && self.o == other.o
    }
}

impl Eq for TermTriple {
    ghost use Rattle.shx_term.specs.inner.TripleLaws.{same_term_triple_equiv};

    ghost laws = { same_term_triple_equiv };
}

impl Hash for TermTriple {
    ghost use Rattle.std.proofs.Common.{ap};
    ghost use Rattle.shx_term.specs.inner.TermHash.{hashed_term_triple};
    ghost use Rattle.shx_term.specs.inner.TripleLaws.{same_term_triple_exact};

    ghost hash_input = { hashed_term_triple };

    ghost respects_eq = { λ a b h. ap hashed_term_triple (same_term_triple_exact a b h) };

    fn hash<H: Hasher>(&self, state: &mut H) {
        self.s.hash(state);
        self.p.hash(state);
        self.o.hash(state);
    }
}
