ghost use Rattle.std.specs.Prelude.{◌≡◌, ◌↔◌, [], ◌∷◌, All, Contains, IfOk, OnOk, OnErr};
ghost use Rattle.shx_term.specs.Members.{Adds};
ghost use Rattle.read_records.specs.declared.posting.Posting.{Posting};
ghost use Rattle.read_records.specs.declared.posting.Whom.{Whom};
ghost use Rattle.read_records.specs.inner.Postings.{HasNumbers, IsWithout, posting};

use crate::posting::{Place, Posting, Whom};
use comp_core::ShapeNo;
use shx_term::{Id, Memory};
use std::alloc::Global;
use std::collections::BTreeSet;
use std::marker::Model;

/// Under the numbers of each key of one kind its readers of one kind, as one tree. Contracts see the list of
/// these, in order.
#[derive(Drop)]
pub(crate) struct Postings {
    all: BTreeSet<Posting>,
}

impl Model for Postings {
    ghost use Rattle.std.specs.Prelude.{List, All};
    ghost use Rattle.read_records.specs.declared.posting.Posting.{Posting};
    ghost use Rattle.read_records.specs.inner.Postings.{HasNumbers};

    ghost Value = { List Posting };

    ghost view = { λ a. a.all.keys };

    ghost invariant = { λ a. All HasNumbers a.all.keys };
}

impl Postings {
    /// No postings. It takes no memory.
    pub(crate) fn new(alloc: Global) -> Postings
        ensures { result ≡ [] }
    {
        Postings {
            all: BTreeSet::new(alloc),
        }
    }

    /// These postings, each once. It sorts them, which takes time `O(n log n)` in their number, and memory
    /// for them once more.
    pub(crate) fn of_all(alloc: Global, all: Vec<Posting>) -> Result<Postings, Memory>
        requires { All HasNumbers all.items }
        ensures { IfOk result (λ made. (x : Posting) → Contains made x ↔ Contains all.items x) }
    {
        let all = all.into_iter().collect(alloc)?;
        Ok(Postings { all })
    }

    /// Enters a reader under a key. It takes logarithmic time, as `remove` does.
    pub(crate) fn insert(&mut self, place: Place, whom: Whom) -> Result<(), Memory>
        ensures added { OnOk result (Adds self.old self.new (posting place whom ∷ [])) }
        ensures refused { OnErr result (self.new ≡ self.old) }
    {
        self.all.insert(Posting::new(place, whom))?;
        Ok(())
    }

    /// Takes a reader out from under a key. It takes no memory.
    pub(crate) fn remove(&mut self, place: Place, whom: Whom)
        ensures { IsWithout self.old self.new (posting place whom) }
    {
        self.all.remove(&Posting::new(place, whom));
    }

    /// The readers that stand under a key. It takes logarithmic time, and linear time in what it finds.
    pub(crate) fn under(&self, alloc: Global, place: Place) -> Result<Vec<Whom>, Memory>
        ensures { IfOk result (λ found.
            (w : Whom) → Contains found.items w ↔ Contains self.now (posting place w)) }
    {
        let least = Posting::new(place, Whom { shape: 0, node: 0 });
        let greatest = Posting::new(
            place,
            Whom {
                shape: ShapeNo::MAX,
                node: Id::MAX,
            },
        );
        self.all
            .range(least..=greatest)
            .map(|posting| posting.whom)
            .collect(alloc)
    }
}
