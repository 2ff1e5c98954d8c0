ghost use Rattle.std.specs.Prelude.{◌≡◌, ◌↔◌, [], ◌∷◌, Contains, IfOk, OnOk, OnErr};
ghost use Rattle.shx_term.specs.Members.{Adds};
ghost use Rattle.graph_view.specs.declared.key.Key.{Key};
ghost use Rattle.read_records.specs.declared.posting.Posting.{Posting};
ghost use Rattle.read_records.specs.inner.Postings.{place, posting};
ghost use Rattle.read_records.specs.inner.Filing.{AddsOne, AddsSome, ChangesOne, HoldSame, Reading, Stands};
ghost use Rattle.read_records.specs.inner.Filing.{StandsUnderEach, StaysIn, no_postings};
ghost use Rattle.read_records.specs.inner.Filing.{nothing_filed, reading};

use crate::Reader;
use crate::by_kind::ByKind;
use crate::filing::Filing;
use crate::posting::{Place, Posting, Whom, place_of, whom_of};
use crate::postings::Postings;
use graph_view::Key;
use shx_term::Memory;
use std::alloc::Global;
use std::marker::Model;

/// Postings that are gathered, and then put in order at once. Contracts see the list of these.
#[derive(Drop)]
pub(crate) struct PostingList {
    all: Vec<Posting>,
}

impl Model for PostingList {
    ghost use Rattle.std.specs.Prelude.{List, All};
    ghost use Rattle.read_records.specs.declared.posting.Posting.{Posting};
    ghost use Rattle.read_records.specs.inner.Postings.{HasNumbers};

    ghost Value = { List Posting };

    ghost view = { λ a. a.all.items };

    ghost invariant = { λ a. All HasNumbers a.all.items };
}

impl PostingList {
    fn new(alloc: Global) -> PostingList
        ensures { result ≡ [] }
    {
        PostingList {
            all: Vec::new(alloc),
        }
    }

    fn push(&mut self, place: Place, whom: Whom) -> Result<(), Memory>
        ensures added { OnOk result (Adds self.old self.new (posting place whom ∷ [])) }
        ensures refused { OnErr result (self.new ≡ self.old) }
    {
        self.all.push(Posting::new(place, whom))?;
        Ok(())
    }

    // It takes time `O(n log n)` in their number, and memory for them once more.
    fn in_order(self, alloc: Global) -> Result<Postings, Memory>
        ensures { IfOk result (λ made. (x : Posting) → Contains made x ↔ Contains self x) }
    {
        Postings::of_all(alloc, self.all)
    }
}

impl ByKind<PostingList> {
    fn none(alloc: Global) -> ByKind<PostingList>
        ensures { result ≡ no_postings }
    {
        ByKind {
            out: PostingList::new(alloc),
            into: PostingList::new(alloc),
            subject: PostingList::new(alloc),
            predicate: PostingList::new(alloc),
            answer: PostingList::new(alloc),
        }
    }

    fn push(&mut self, key: &Key, whom: Whom) -> Result<(), Memory>
        ensures added { OnOk result (ChangesOne
            (λ old new. Adds old new (posting (place key.now) whom ∷ [])) self.old self.new key.now) }
        ensures refused { OnErr result (self.new ≡ self.old) }
    {
        let place = place_of(key);
        match key {
            Key::Out(_, _) => self.out.push(place, whom),
            Key::In(_, _) => self.into.push(place, whom),
            Key::Subject(_) => self.subject.push(place, whom),
            Key::Predicate(_) => self.predicate.push(place, whom),
            Key::Answer(_, _) => self.answer.push(place, whom),
        }
    }

    // Each list is let go once its tree is made.
    fn in_order(self, alloc: Global) -> Result<ByKind<Postings>, Memory>
        ensures { IfOk result (HoldSame self) }
    {
        Ok(ByKind {
            out: self.out.in_order(alloc)?,
            into: self.into.in_order(alloc)?,
            subject: self.subject.in_order(alloc)?,
            predicate: self.predicate.in_order(alloc)?,
            answer: self.answer.in_order(alloc)?,
        })
    }
}

/// Readings that are gathered, and then put in order at once.
#[derive(Drop)]
pub(crate) struct Gathered {
    targets: ByKind<PostingList>,
    pairs: ByKind<PostingList>,
}

impl Model for Gathered {
    ghost use Rattle.read_records.specs.inner.Filing.{AreTargets, Filed};

    ghost Value = { Filed };

    ghost view = { λ a. record { targets = a.targets; pairs = a.pairs } };

    ghost invariant = { λ a. AreTargets a.targets };
}

impl Gathered {
    /// No readings. It takes no memory.
    pub(crate) fn new(alloc: Global) -> Gathered
        ensures { result ≡ nothing_filed }
    {
        Gathered {
            targets: ByKind::none(alloc),
            pairs: ByKind::none(alloc),
        }
    }

    fn add(&mut self, key: &Key, reader: Reader) -> Result<(), Memory>
        ensures { OnOk result (AddsOne self.old self.new (reading key.now reader)) }
    {
        match reader {
            Reader::OfTarget(_) => self.targets.push(key, whom_of(&reader)),
            Reader::OfPair(_) => self.pairs.push(key, whom_of(&reader)),
        }
    }

    /// Adds a reader under each of these keys.
    pub(crate) fn add_all(&mut self, keys: &[Key], reader: Reader) -> Result<(), Memory>
        ensures stay { OnOk result (StaysIn self.old self.new) }
        ensures only { OnOk result (AddsSome self.old self.new keys.now reader) }
        ensures added { OnOk result (StandsUnderEach self.new keys.now reader) }
    {
        for key in keys {
            self.add(key, reader)?;
        }
        Ok(())
    }

    /// Puts them in order. It takes time `O(n log n)` in their number, and memory for those of one kind once
    /// more.
    pub(crate) fn in_order(self, alloc: Global) -> Result<Filing, Memory>
        ensures { IfOk result (λ made. (x : Reading) → Stands made x ↔ Stands self x) }
    {
        let targets = self.targets.in_order(alloc)?;
        let pairs = self.pairs.in_order(alloc)?;
        Ok(Filing::of_trees(targets, pairs))
    }
}
