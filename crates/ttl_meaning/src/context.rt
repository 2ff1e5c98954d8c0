ghost use Rattle.std.specs.Prelude.{ℕ, List, ◌++◌, IfOk, OnOk};
ghost use Rattle.shx_term.specs.declared.term.Term.{Term as term};
ghost use Rattle.shx_term.specs.declared.term.Term.TheVariants.{Iri};
ghost use Rattle.shx_term.specs.declared.triple.TermTriple.{TermTriple as term_triple};
ghost use Rattle.ttl_meaning.specs.IsStated.{Bounds, IsStated};
ghost use Rattle.ttl_meaning.specs.KeepsTerms.{KeepsTerms};
ghost use Rattle.ttl_meaning.specs.State.{goes_on_with, behind_node, triple_in, subject_term};
ghost use Rattle.ttl_meaning.specs.State.{Context as a_context, Subject as a_subject};
ghost use Rattle.ttl_meaning.specs.inner.Placed.{IsContext, IsPlaced};

use crate::placed::Placed;
use crate::stated::Stated;
use shx_term::{Memory, Pool, Term};

/// What the next term belongs to.
#[derive(Debug)]
pub enum Context {
    /// Nothing yet: it becomes a subject.
    Open,
    /// A subject that waits for its verb.
    About(Placed),
    /// A subject and a verb: it becomes their object.
    Of(Placed, Placed),
}

// A derived drop is no call: each place where a context ends would split into one path for each kind.
impl Drop for Context {
    fn drop(self) {
        match self {
            Context::Open => {}
            Context::About(_subject) => {}
            Context::Of(_subject, _verb) => {}
        }
    }
}

impl Context {
    // What the context is behind an IRI or a blank node, whose triple is stated where it makes one.
    pub(crate) fn behind_node(
        self,
        stated: &mut Stated,
        pool: &mut Pool,
        node: Placed,
    ) -> Result<Context, Memory>
        ensures keeps { KeepsTerms pool.old pool.new }
        ensures context { (c : a_context) (n : a_subject) → IsContext pool.old.terms self c
            → IsPlaced pool.old.terms node (subject_term n)
            → IfOk result (λ context. IsContext pool.new.terms context (behind_node n c)) }
        ensures stated { (c : a_context) (n : a_subject) (bounds : Bounds) (triples : List term_triple)
            → IsContext pool.old.terms self c → IsPlaced pool.old.terms node (subject_term n)
            → IsStated bounds triples stated.old pool.old → OnOk result
            (IsStated bounds (triples ++ triple_in (subject_term n) c) stated.new pool.new) }
    {
        match self {
            Context::Open => Ok(Context::About(node)),
            Context::About(subject) => Ok(Context::About(subject)),
            Context::Of(subject, verb) => stated.add(pool, subject, verb, node),
        }
    }

    // The same behind a literal.
    pub(crate) fn behind_literal(
        self,
        stated: &mut Stated,
        pool: &mut Pool,
        literal: Term,
    ) -> Result<Context, Memory>
        ensures keeps { KeepsTerms pool.old pool.new }
        ensures context { (c : a_context) → IsContext pool.old.terms self c
            → IfOk result (λ context. IsContext pool.new.terms context c) }
        ensures stated { (c : a_context) (bounds : Bounds) (triples : List term_triple)
            → IsContext pool.old.terms self c → IsStated bounds triples stated.old pool.old
            → OnOk result (IsStated bounds (triples ++ triple_in literal c) stated.new pool.new) }
    {
        match self {
            Context::Open => Ok(Context::Open),
            Context::About(subject) => Ok(Context::About(subject)),
            Context::Of(subject, verb) => stated.add(pool, subject, verb, Placed::Term(literal)),
        }
    }

    // The context goes on with a verb.
    pub(crate) fn with_verb(self, verb: Placed) -> Context
        ensures { (terms : List term) (c : a_context) (iri : List ℕ) → IsContext terms self c
            → IsPlaced terms verb (Iri iri) → IsContext terms result (goes_on_with iri c) }
    {
        match self {
            Context::Open => Context::Open,
            Context::About(subject) => Context::Of(subject, verb),
            Context::Of(subject, _) => Context::Of(subject, verb),
        }
    }
}
