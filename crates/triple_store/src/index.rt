ghost use Rattle.std.specs.Prelude.{◌≡◌, ◌↔◌, [], ◌+◌, map, length, min, Contains, if◌then◌else◌};
ghost use Rattle.std.specs.Prelude.{IsTrue, IfOk, OnOk, OnErr};
ghost use Rattle.std.specs.Bool.{OnFalse};
ghost use Rattle.graph_view.specs.Graph.{HasAlso, IsWithout};
ghost use Rattle.shx_term.specs.Members.{SameMembers};
ghost use Rattle.triple_store.specs.inner.Index.{IsArranged, led_by, led_by_pair, third_of};

use crate::arrangement::{Arrangement, Entry};
use shx_term::{Id, Memory, Triple};
use std::alloc::Global;
use std::collections::BTreeSet;
use std::marker::Model;

/// A set of triples in one arrangement, as a tree of their entries. Contracts see it as the list of its
/// triples, in the order of their entries.
#[derive(Drop)]
pub(crate) struct Index {
    arrangement: Arrangement,
    entries: BTreeSet<Entry>,
}

impl Model for Index {
    ghost use Rattle.std.specs.Prelude.{map, All};
    ghost use Rattle.triple_store.specs.inner.Arrangement.{triple_at, HasNumbers};
    ghost use Rattle.triple_store.specs.inner.Index.{Arranged};

    ghost Value = { Arranged };

    ghost view = { λ a. record {
      arrangement = a.arrangement;
      triples = map (triple_at a.arrangement) a.entries.keys;
    } };

    ghost invariant = { λ a. All HasNumbers a.entries.keys };
}

impl Index {
    /// No triples. It takes no memory.
    pub(crate) fn new(alloc: Global, arrangement: Arrangement) -> Index
        ensures { result ≡ record { arrangement = arrangement; triples = [] } }
    {
        Index {
            arrangement,
            entries: BTreeSet::new(alloc),
        }
    }

    /// The triples of a list, each once. It sorts them, which takes time `O(n log n)` in their number, and
    /// memory for them once more.
    pub(crate) fn from_triples(
        alloc: Global,
        arrangement: Arrangement,
        triples: &[Triple],
    ) -> Result<Index, Memory>
        ensures arrangement { IfOk result (λ index. index.arrangement ≡ arrangement) }
        ensures holds { IfOk result (λ index. SameMembers triples.now index.triples) }
        ensures ordered { IfOk result IsArranged }
    {
        let entries: BTreeSet<Entry> = triples
            .iter()
            .map(|t| arrangement.entry(*t))
            .collect(alloc)?;
        Ok(Index {
            arrangement,
            entries,
        })
    }

    /// How many triples there are. It takes no memory, and constant time.
    pub(crate) fn len(&self) -> usize
        ensures count { result ≡ length self.now.triples }
        ensures ordered { IsArranged self.now }
    {
        self.entries.len()
    }

    /// Whether the triple is held. It takes no memory, and logarithmic time.
    pub(crate) fn contains(&self, t: &Triple) -> bool
        ensures { IsTrue result ↔ Contains self.now.triples t.now }
    {
        self.entries.contains(&self.arrangement.entry(*t))
    }

    /// Adds a triple; `Ok(false)` says that it was held, and takes no memory. It takes logarithmic time.
    pub(crate) fn insert(&mut self, t: Triple) -> Result<bool, Memory>
        ensures arrangement { self.new.arrangement ≡ self.old.arrangement }
        ensures added { OnOk result (HasAlso self.old.triples self.new.triples t) }
        ensures new { IfOk result (λ new. IsTrue new ↔ (Contains self.old.triples t → ⊥)) }
        ensures unchanged { IfOk result (λ new. OnFalse new (self.new ≡ self.old)) }
        ensures count { IfOk result (λ new. length self.new.triples
            ≡ length self.old.triples + (if new then 1 else 0)) }
        ensures refused { OnErr result (self.new ≡ self.old) }
        ensures absent { OnErr result (Contains self.old.triples t → ⊥) }
        ensures ordered { IsArranged self.new }
    {
        let new = self.entries.insert(self.arrangement.entry(t))?;
        Ok(new)
    }

    /// Removes a triple; `true` says that it was held. It takes no memory, and logarithmic time.
    pub(crate) fn remove(&mut self, t: &Triple) -> bool
        ensures arrangement { self.new.arrangement ≡ self.old.arrangement }
        ensures removed { IsWithout self.old.triples self.new.triples t.now }
        ensures held { IsTrue result ↔ Contains self.old.triples t.now }
        ensures count { length self.new.triples + (if result then 1 else 0) ≡ length self.old.triples }
        ensures ordered { IsArranged self.new }
    {
        self.entries.remove(&self.arrangement.entry(*t))
    }

    /// The triples with this first number, in the order of their entries. It takes logarithmic time, and
    /// linear time in what it finds.
    pub(crate) fn triples_under(&self, alloc: Global, first: Id) -> Result<Vec<Triple>, Memory>
        ensures { IfOk result (λ found. found.items ≡ led_by self.now first) }
    {
        let low = Entry::new(first, 0, 0);
        let high = Entry::new(first, Id::MAX, Id::MAX);
        self.entries
            .range(low..=high)
            .map(|entry| self.arrangement.triple(entry))
            .collect(alloc)
    }

    /// The third numbers of the triples with this first and second number, rising. It takes logarithmic time,
    /// and linear time in what it finds.
    pub(crate) fn thirds_under(
        &self,
        alloc: Global,
        first: Id,
        second: Id,
    ) -> Result<Vec<Id>, Memory>
        ensures { IfOk result (λ found.
            found.items ≡ map (third_of self.now) (led_by_pair self.now first second)) }
    {
        let low = Entry::new(first, second, 0);
        let high = Entry::new(first, second, Id::MAX);
        self.entries
            .range(low..=high)
            .map(|entry| entry.third)
            .collect(alloc)
    }

    /// How many triples have this first number, up to a bound. It takes no memory, logarithmic time, and as
    /// many steps as it counts.
    pub(crate) fn count_under(&self, first: Id, most: usize) -> usize
        ensures { result ≡ min (length (led_by self.now first)) most }
    {
        let low = Entry::new(first, 0, 0);
        let high = Entry::new(first, Id::MAX, Id::MAX);
        self.entries.range(low..=high).take(most).count()
    }

    /// How many triples have this first and second number, up to a bound. It takes no memory, logarithmic
    /// time, and as many steps as it counts.
    pub(crate) fn count_under_pair(&self, first: Id, second: Id, most: usize) -> usize
        ensures { result ≡ min (length (led_by_pair self.now first second)) most }
    {
        let low = Entry::new(first, second, 0);
        let last = Entry::new(first, second, Id::MAX);
        self.entries.range(low..=last).take(most).count()
    }
}
