ghost use Rattle.std.specs.Prelude.{◌≡◌, ◌↔◌, Contains, IfOk, OnOk, OnErr};
ghost use Rattle.read_records.specs.declared.reader.Reader.{Reader};
ghost use Rattle.read_records.specs.inner.Filing.{AddsOne, AreTargets, IsLeft, Stands};
ghost use Rattle.read_records.specs.inner.Filing.{nothing_filed, reading};

use crate::Reader;
use crate::by_kind::ByKind;
use crate::posting::whom_of;
use crate::postings::Postings;
use comp_core::Pair;
use graph_view::Key;
use shx_term::Memory;
use std::alloc::Global;
use std::marker::Model;

/// Under each key its readers. What a tree holds is all of one kind, so that a key and a reader take 16
/// bytes.
#[derive(Drop)]
pub(crate) struct Filing {
    targets: ByKind<Postings>,
    pairs: ByKind<Postings>,
}

impl Model for Filing {
    ghost use Rattle.read_records.specs.inner.Filing.{AreTargets, Filed};

    ghost Value = { Filed };

    ghost view = { λ a. record { targets = a.targets; pairs = a.pairs } };

    ghost invariant = { λ a. AreTargets a.targets };
}

impl Filing {
    /// No readings. It takes no memory.
    pub(crate) fn new(alloc: Global) -> Filing
        ensures { result ≡ nothing_filed }
    {
        Filing {
            targets: ByKind::new(alloc),
            pairs: ByKind::new(alloc),
        }
    }

    /// What is in these trees. It takes no memory.
    pub(crate) fn of_trees(targets: ByKind<Postings>, pairs: ByKind<Postings>) -> Filing
        requires { AreTargets targets }
        ensures { result ≡ record { targets = targets; pairs = pairs } }
    {
        Filing { targets, pairs }
    }

    /// Enters a reader under a key. It takes logarithmic time, as `remove` does.
    pub(crate) fn insert(&mut self, key: Key, reader: Reader) -> Result<(), Memory>
        ensures added { OnOk result (AddsOne self.old self.new (reading key reader)) }
        ensures refused { OnErr result (self.new ≡ self.old) }
    {
        match reader {
            Reader::OfTarget(_) => self.targets.insert(&key, whom_of(&reader)),
            Reader::OfPair(_) => self.pairs.insert(&key, whom_of(&reader)),
        }
    }

    /// Takes a reader out from under a key. It takes no memory.
    pub(crate) fn remove(&mut self, key: Key, reader: Reader)
        ensures { IsLeft self.old self.new (reading key reader) }
    {
        match reader {
            Reader::OfTarget(_) => self.targets.remove(&key, whom_of(&reader)),
            Reader::OfPair(_) => self.pairs.remove(&key, whom_of(&reader)),
        }
    }

    /// The readers that stand under a key. It takes two look-ups of logarithmic time, and linear time in what
    /// it finds.
    pub(crate) fn readers_of(&self, alloc: Global, key: &Key) -> Result<Vec<Reader>, Memory>
        ensures { IfOk result (λ found.
            (r : Reader) → Contains found.items r ↔ Stands self.now (reading key.now r)) }
    {
        let targets = self.targets.under(alloc, key)?;
        let pairs = self.pairs.under(alloc, key)?;
        let targets = targets.iter().map(|whom| Reader::OfTarget(whom.shape));
        let pairs = pairs.iter().map(|whom| {
            Reader::OfPair(Pair {
                shape: whom.shape,
                node: whom.node,
            })
        });
        targets.chain(pairs).collect(alloc)
    }
}
