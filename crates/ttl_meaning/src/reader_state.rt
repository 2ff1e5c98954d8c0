ghost use Rattle.std.specs.Prelude.{◌≡◌, None, IfOk};
ghost use Rattle.iri_resolve.specs.Resolution.{IsAbsolute};
ghost use Rattle.ttl_meaning.specs.inner.IsReading.{IsReading};
ghost use Rattle.ttl_meaning.specs.State.{State, first_state};
ghost use Rattle.ttl_meaning.specs.IsStated.{Bounds};
ghost use Rattle.ttl_meaning.specs.inner.DocumentOf.{IsDocumentOf};
ghost use Rattle.shx_term.specs.Pool.{Pooled};

use crate::base::Base;
use crate::context::Context;
use crate::document::Document;
use crate::fault::TermFault;
use crate::stated::{Excess, Stated};
use crate::tables::{label_table, prefix_table};
use shx_term::{IriText, Memory, Pool, Scope};
use std::alloc::Global;
use std::collections::{BTreeMap, BTreeSet};

/// What a reader of a text knows at a place, and what it has read.
pub struct ReaderState {
    pub(crate) alloc: Global,
    pub(crate) scope: Scope,
    pub(crate) base: Base,
    pub(crate) prefixes: BTreeMap<String, IriText>,
    pub(crate) labels: BTreeSet<String>,
    pub(crate) next: u32,
    // The innermost last.
    pub(crate) contexts: Vec<Context>,
    pub(crate) held: String,
    pub(crate) held_at: usize,
    pub(crate) stated: Stated,
    pub(crate) fault: Option<TermFault>,
}

// A derived drop is no call: each place where one ends would split into one path for each of its parts.
impl Drop for ReaderState {
    fn drop(self) {
        let ReaderState {
            alloc: _alloc,
            scope: _scope,
            base: _base,
            prefixes: _prefixes,
            labels: _labels,
            next: _next,
            contexts: _contexts,
            held: _held,
            held_at: _held_at,
            stated: _stated,
            fault: _fault,
        } = self;
    }
}

impl ReaderState {
    /// Nothing is read yet of a text with this base, which is to state at most so many triples.
    pub fn new(
        alloc: Global,
        scope: Scope,
        base: &IriText,
        most: u64,
        pool: &Pool,
    ) -> Result<ReaderState, Memory>
        requires { IsAbsolute base.now }
        ensures { IfOk result (λ reading. IsReading
            (record { triples = most; terms = pool.now.limit; held = pool.now.terms })
            (first_state scope base.now) reading pool.now) }
    {
        // A pool begins with the vocabulary.
        let _ = pool.len();
        Ok(ReaderState {
            alloc,
            scope,
            base: Base::new(base.copy(alloc)?),
            prefixes: BTreeMap::new(alloc),
            labels: BTreeSet::new(alloc),
            next: 1,
            contexts: Vec::new(alloc),
            held: String::new(alloc),
            held_at: 0,
            stated: Stated::new(alloc, most, pool),
            fault: None,
        })
    }

    /// Of the terms so far, the first that has no place here.
    pub fn fault(&self) -> Option<TermFault>
        ensures { result ≡ self.now.fault }
    {
        self.fault
    }

    /// The limit that was passed.
    pub fn excess(&self) -> Option<Excess>
        ensures { result ≡ self.now.stated.excess }
    {
        self.stated.excess
    }

    /// What was read, where no term had a fault and no limit was passed.
    pub fn finish(self) -> Result<Document, Memory>
        ensures { (bounds : Bounds) (s : State) (pool : Pooled) → s.fault ≡ None → self.stated.excess ≡ None
            → IsReading bounds s self pool → IfOk result (λ document. IsDocumentOf bounds s document pool) }
    {
        let ReaderState {
            alloc,
            scope: _scope,
            base,
            prefixes,
            labels,
            next,
            contexts: _contexts,
            held: _held,
            held_at: _held_at,
            stated,
            fault: _fault,
        } = self;
        Ok(Document {
            triples: stated.into_triples(),
            prefixes: prefix_table(alloc, prefixes)?,
            base: base.into_iri(),
            labels: label_table(alloc, labels)?,
            anonymous: next.saturating_sub(1),
        })
    }
}
