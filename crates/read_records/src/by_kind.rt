ghost use Rattle.std.specs.Prelude.{◌≡◌, ◌↔◌, ◌∷◌, [], Contains, IfOk, OnOk, OnErr};
ghost use Rattle.shx_term.specs.Members.{Adds};
ghost use Rattle.read_records.specs.declared.posting.Whom.{Whom};
ghost use Rattle.read_records.specs.inner.Postings.{IsWithout, place, posting};
ghost use Rattle.read_records.specs.inner.Filing.{ChangesOne, no_postings, tree};

use crate::posting::{Whom, place_of};
use crate::postings::Postings;
use graph_view::Key;
use shx_term::Memory;
use std::alloc::Global;

/// What is kept under keys, one for each of their kinds.
#[derive(Drop)]
pub(crate) struct ByKind<S: Drop> {
    pub(crate) out: S,
    pub(crate) into: S,
    pub(crate) subject: S,
    pub(crate) predicate: S,
    pub(crate) answer: S,
}

impl ByKind<Postings> {
    /// No postings. It takes no memory.
    pub(crate) fn new(alloc: Global) -> ByKind<Postings>
        ensures { result ≡ no_postings }
    {
        ByKind {
            out: Postings::new(alloc),
            into: Postings::new(alloc),
            subject: Postings::new(alloc),
            predicate: Postings::new(alloc),
            answer: Postings::new(alloc),
        }
    }

    pub(crate) fn insert(&mut self, key: &Key, whom: Whom) -> Result<(), Memory>
        ensures added { OnOk result (ChangesOne
            (λ old new. Adds old new (posting (place key.now) whom ∷ [])) self.old self.new key.now) }
        ensures refused { OnErr result (self.new ≡ self.old) }
    {
        let place = place_of(key);
        match key {
            Key::Out(_, _) => self.out.insert(place, whom),
            Key::In(_, _) => self.into.insert(place, whom),
            Key::Subject(_) => self.subject.insert(place, whom),
            Key::Predicate(_) => self.predicate.insert(place, whom),
            Key::Answer(_, _) => self.answer.insert(place, whom),
        }
    }

    pub(crate) fn remove(&mut self, key: &Key, whom: Whom)
        ensures { ChangesOne
            (λ old new. IsWithout old new (posting (place key.now) whom)) self.old self.new key.now }
    {
        let place = place_of(key);
        match key {
            Key::Out(_, _) => self.out.remove(place, whom),
            Key::In(_, _) => self.into.remove(place, whom),
            Key::Subject(_) => self.subject.remove(place, whom),
            Key::Predicate(_) => self.predicate.remove(place, whom),
            Key::Answer(_, _) => self.answer.remove(place, whom),
        }
    }

    /// The readers that stand under a key.
    pub(crate) fn under(&self, alloc: Global, key: &Key) -> Result<Vec<Whom>, Memory>
        ensures { IfOk result (λ found. (w : Whom) → Contains found.items w
            ↔ Contains (tree key.now self.now) (posting (place key.now) w)) }
    {
        let place = place_of(key);
        match key {
            Key::Out(_, _) => self.out.under(alloc, place),
            Key::In(_, _) => self.into.under(alloc, place),
            Key::Subject(_) => self.subject.under(alloc, place),
            Key::Predicate(_) => self.predicate.under(alloc, place),
            Key::Answer(_, _) => self.answer.under(alloc, place),
        }
    }
}
