//! Where a term belongs: contexts, blank nodes and collections.
ghost use Rattle.std.specs.Prelude.{ℕ, List, OnOk};
ghost use Rattle.shx_term.specs.declared.term.Term.TheVariants.{Iri};
ghost use Rattle.shx_term.specs.Pool.{Pooled};
ghost use Rattle.shx_term.specs.ValidTriples.{IsNotWide};
ghost use Rattle.ttl_meaning.specs.inner.IsReading.{KeepsOn};
ghost use Rattle.ttl_meaning.specs.inner.Placed.{IsContext, IsPlaced};
ghost use Rattle.ttl_meaning.specs.Items.{put_new, put_label};
ghost use Rattle.ttl_meaning.specs.KeepsTerms.{KeepsTerms};
ghost use Rattle.ttl_meaning.specs.State.{Subject as a_subject, Context as a_context, subject_term};
ghost use Rattle.ttl_meaning.specs.State.{put as put_node, put_object, begin_verb, enter, leave};

use crate::context::Context;
use crate::placed::Placed;
use crate::reader_state::ReaderState;
use crate::terms::{anonymous, labelled};
use shx_term::{Memory, Pool, Term};
use std::alloc::AllocError;

impl ReaderState {
    // An IRI or a blank node stands in the innermost context.
    pub(crate) fn put(&mut self, pool: &mut Pool, node: Placed) -> Result<(), Memory>
        ensures keeps { KeepsTerms pool.old pool.new }
        ensures does { OnOk result ((s : a_subject) → IsPlaced pool.old.terms node (subject_term s)
            → KeepsOn (put_node s) self.old pool.old self.new pool.new) }
    {
        let Some(context) = self.contexts.pop() else {
            return Ok(());
        };
        let context = context.behind_node(&mut self.stated, pool, node)?;
        // A pool begins with the vocabulary.
        let _ = pool.len();
        self.contexts.push(context)?;
        Ok(())
    }

    // A literal stands in the innermost context.
    pub(crate) fn put_object(&mut self, pool: &mut Pool, literal: Term) -> Result<(), Memory>
        requires { IsNotWide literal }
        ensures keeps { KeepsTerms pool.old pool.new }
        ensures does { OnOk result (KeepsOn (put_object literal) self.old pool.old self.new pool.new) }
    {
        let Some(context) = self.contexts.pop() else {
            return Ok(());
        };
        let context = context.behind_literal(&mut self.stated, pool, literal)?;
        // A pool begins with the vocabulary.
        let _ = pool.len();
        self.contexts.push(context)?;
        Ok(())
    }

    // The innermost context goes on with a verb.
    pub(crate) fn begin_verb(&mut self, verb: Placed) -> Result<(), Memory>
        ensures { OnOk result ((pool : Pooled) (iri : List ℕ) → IsPlaced pool.terms verb (Iri iri)
            → KeepsOn (begin_verb iri) self.old pool self.new pool) }
    {
        if let Some(context) = self.contexts.pop() {
            self.contexts.push(context.with_verb(verb))?;
        }
        Ok(())
    }

    // An anonymous node that is new, in its place. The numbers of 32 bits end where no pool has room for more
    // nodes.
    pub(crate) fn put_new(&mut self, pool: &mut Pool) -> Result<(), Memory>
        ensures keeps { KeepsTerms pool.old pool.new }
        ensures does { OnOk result (KeepsOn put_new self.old pool.old self.new pool.new) }
    {
        let Some(next) = self.next.checked_add(1) else {
            return Err(AllocError);
        };
        let node = anonymous(self.scope, self.next);
        self.next = next;
        self.put(pool, Placed::Term(node))
    }

    // A blank node with a label, in its place.
    pub(crate) fn put_label(&mut self, pool: &mut Pool, label: &str) -> Result<(), Memory>
        ensures keeps { KeepsTerms pool.old pool.new }
        ensures does { OnOk result (KeepsOn (put_label label.now) self.old pool.old self.new pool.new) }
    {
        if !self.labels.contains(label) {
            self.labels.insert(String::from_str(self.alloc, label)?)?;
        }
        let node = labelled(self.alloc, self.scope, label)?;
        self.put(pool, Placed::Term(node))
    }

    // From here on an inner context holds.
    pub(crate) fn enter(&mut self, context: Context) -> Result<(), Memory>
        ensures { OnOk result ((pool : Pooled) (c : a_context) → IsContext pool.terms context c
            → KeepsOn (enter c) self.old pool self.new pool) }
    {
        self.contexts.push(context)?;
        Ok(())
    }

    // The innermost context ends.
    pub(crate) fn leave(&mut self)
        ensures { (pool : Pooled) → KeepsOn leave self.old pool self.new pool }
    {
        self.contexts.pop();
    }
}
