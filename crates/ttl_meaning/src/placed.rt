ghost use Rattle.std.specs.Prelude.{◌≡◌, Some, IfOk, IfErr, OnOk, OnErr, position, slice_get};
ghost use Rattle.shx_term.specs.declared.term.Term.{Term as term};
ghost use Rattle.shx_term.specs.Pool.{with_term, IsFullFor};
ghost use Rattle.shx_term.specs.TermOrder.{same_term};
ghost use Rattle.ttl_meaning.specs.KeepsTerms.{KeepsTerms};
ghost use Rattle.ttl_meaning.specs.inner.Placed.{IsPlaced};

use shx_term::{Id as TermId, Pool, PoolFault, Term as TermOf};

/// A term that stands somewhere: as itself until it is entered into a pool, and then by its number.
#[derive(Debug)]
pub enum Placed {
    Term(TermOf),
    Id(TermId),
}

// A derived drop is no call: each place where a term ends would split into one path for each kind.
impl Drop for Placed {
    fn drop(self) {
        match self {
            Placed::Term(_term) => {}
            Placed::Id(_id) => {}
        }
    }
}

impl Placed {
    // The number of the term, which is entered where it has none. It takes a look-up by hash, or none where
    // the number is known.
    pub(crate) fn number(&self, pool: &mut Pool) -> Result<TermId, PoolFault>
        ensures keeps { KeepsTerms pool.old pool.new }
        ensures entered { (t : term) → IsPlaced pool.old.terms self.now t
            → OnOk result (pool.new.terms ≡ with_term pool.old.terms t) }
        ensures found { (t : term) → IsPlaced pool.old.terms self.now t
            → IfOk result (λ id. position (same_term t) pool.new.terms ≡ Some id) }
        ensures id { (t : term) → IsPlaced pool.old.terms self.now t
            → IfOk result (λ id. slice_get pool.new.terms id ≡ Some t) }
        ensures refused { OnErr result (pool.new.terms ≡ pool.old.terms) }
        ensures full { (t : term) → IsPlaced pool.old.terms self.now t
            → IfErr result (λ fault. fault ≡ PoolFault.Full → IsFullFor pool.old t) }
    {
        match self {
            Placed::Term(term) => pool.enter(term),
            Placed::Id(id) => {
                // The terms of a pool are distinct.
                let _ = pool.len();
                Ok(*id)
            }
        }
    }

    // As `number`, where the term is not needed any more: so it is not copied.
    pub(crate) fn into_number(self, pool: &mut Pool) -> Result<TermId, PoolFault>
        ensures keeps { KeepsTerms pool.old pool.new }
        ensures entered { (t : term) → IsPlaced pool.old.terms self t
            → OnOk result (pool.new.terms ≡ with_term pool.old.terms t) }
        ensures found { (t : term) → IsPlaced pool.old.terms self t
            → IfOk result (λ id. position (same_term t) pool.new.terms ≡ Some id) }
        ensures refused { OnErr result (pool.new.terms ≡ pool.old.terms) }
        ensures full { (t : term) → IsPlaced pool.old.terms self t
            → IfErr result (λ fault. fault ≡ PoolFault.Full → IsFullFor pool.old t) }
    {
        match self {
            Placed::Term(term) => pool.enter_own(term),
            Placed::Id(id) => {
                let _ = pool.len();
                Ok(id)
            }
        }
    }
}
