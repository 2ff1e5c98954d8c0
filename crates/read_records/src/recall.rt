ghost use Rattle.std.specs.Prelude.{◌≡◌, ◌↔◌, ◌++◌, [], ◌∷◌, Contains, IsSome, IfOk, OnOk, OnErr};
ghost use Rattle.std.specs.List.{IsDistinct};
ghost use Rattle.std.specs.Map.{keys_of, lookup};
ghost use Rattle.std.specs.Option.{option_map};
ghost use Rattle.shx_term.specs.InOrder.{Lists};
ghost use Rattle.graph_view.specs.declared.key.Key.{Key};
ghost use Rattle.comp_core.specs.declared.pair.Pair.{Pair};
ghost use Rattle.comp_core.specs.Memo.{lent, remembered_of};
ghost use Rattle.comp_core.specs.Pairs.{same_pair};
ghost use Rattle.read_records.specs.Recall.{IsReadInAll, IsReached, KeepsRecalled, KeepsSame};
ghost use Rattle.read_records.specs.Recall.{MasksAtMost, MasksReached};
ghost use Rattle.read_records.specs.Recall.{StagesAnswer, StagesSame, kept_count, kept_of, pair_cmp};
ghost use Rattle.read_records.specs.Recall.{recalled};
ghost use Rattle.read_records.specs.inner.Remembered.{as_remembered};

use crate::Reader;
use crate::noted::Noted;
use crate::reached::{add_parts, reached_by};
use crate::store::Store;
use comp_core::{Memo, Pair, PairAnswer, Recalled, ResultRow, RowList};
use graph_view::Reads;
use indexmap::IndexSet;
use shx_term::{Memory, Triple};
use std::alloc::Global;
use std::marker::Model;

/// The results of pairs, and what these were read from. Of a pair that is remembered which is staged for it,
/// and what is kept where nothing is; a mask is staged where nothing is to be remembered. Changes are staged,
/// which takes all the memory that they need, and then made at once, or dropped.
pub struct Recall {
    store: Store<RowList>,
}

// A derived drop is no call: each place where one ends would split into one path for each of its parts.
impl Drop for Recall {
    fn drop(self) {
        let Recall { store: _store } = self;
    }
}

impl Model for Recall {
    ghost use Rattle.read_records.specs.Recall.{RecallState};
    ghost use Rattle.read_records.specs.inner.Remembered.{as_recalled};

    ghost Value = { RecallState };

    ghost view = { λ a. as_recalled a.store };
}

impl Recall {
    /// Nothing is kept, and nothing staged. It takes no memory.
    pub fn new(alloc: Global) -> Recall
        ensures { result ≡ record { kept = []; staged = [] } }
    {
        Recall {
            store: Store::new(alloc),
        }
    }

    /// These answers are kept, and nothing staged. They are sorted, and so are their keys, which takes time
    /// `O(n log n)` for n keys, and memory for the keys twice more while they are sorted.
    pub fn of_all(alloc: Global, all: Vec<(Pair, PairAnswer<Reads>)>) -> Result<Recall, Memory>
        requires once { IsDistinct same_pair (keys_of all.items) }
        ensures kept { IfOk result (λ made. (p : Pair)
            → kept_of made p ≡ option_map remembered_of (lookup (same_pair p) all.items)) }
        ensures staged { IfOk result (λ made. made.staged ≡ []) }
    {
        let kept = all
            .into_iter()
            .map(|(pair, answer)| (Reader::OfPair(pair), Some(noted_of(answer))))
            .collect(alloc)?;
        Ok(Recall {
            store: Store::of_kept(alloc, kept)?,
        })
    }

    /// What is remembered of a pair: `None` exactly where nothing is. It takes no memory, and logarithmic
    /// time.
    pub fn find(&self, pair: &Pair) -> Option<Recalled<'_, Reads>>
        ensures { option_map lent result ≡ recalled self.now pair.now }
    {
        match self.store.coming(&Reader::OfPair(*pair)) {
            Some(noted) => Some(Recalled {
                rows: noted.value.as_slice(),
                reads: &noted.reads,
            }),
            None => None,
        }
    }

    /// How many answers are kept, masked or not. It takes no memory, and time linear in their number.
    pub fn len(&self) -> usize
        ensures { result ≡ kept_count self.now }
    {
        self.store.count()
    }

    /// The pairs whose answers are kept, masked or not, by the numbers of shape and node. It takes linear
    /// time.
    pub fn pairs(&self, alloc: Global) -> Result<Vec<Pair>, Memory>
        ensures { IfOk result (λ pairs. Lists pair_cmp (λ p. IsSome (kept_of self.now p)) pairs.items) }
    {
        self.store.pairs(alloc)
    }

    /// Masks what is kept of each pair that was read from a key which the triple touches, or from the answer
    /// of one that is masked, beside what is masked. What is staged stays. It takes four look-ups, and some
    /// more for each of these pairs. Where it is refused, some of them may be masked.
    pub fn mask(&mut self, alloc: Global, t: &Triple) -> Result<(), Memory>
        ensures kept { KeepsSame self.old self.new }
        ensures only { MasksAtMost self.old self.new (t.now ∷ []) }
        ensures masked { OnOk result (MasksReached self.old self.new (t.now ∷ [])) }
    {
        self.mask_change(alloc, &[*t], &[])?;
        Ok(())
    }

    /// Masks what is kept of each pair that was read from a key which one of the triples touches, or from the
    /// answer of one that is masked, beside what is masked; and gives these pairs. What is staged stays. It
    /// sorts the keys that the triples touch, and takes a look-up for each, and some more for each of these
    /// pairs. Where it is refused, some of them may be masked.
    pub fn mask_change(
        &mut self,
        alloc: Global,
        added: &[Triple],
        removed: &[Triple],
    ) -> Result<IndexSet<Pair>, Memory>
        ensures kept { KeepsSame self.old self.new }
        ensures only { MasksAtMost self.old self.new (added.now ++ removed.now) }
        ensures masked { OnOk result (MasksReached self.old self.new (added.now ++ removed.now)) }
        ensures reached { IfOk result (λ reached. (p : Pair)
            → Contains reached.keys p ↔ IsReached self.old (added.now ++ removed.now) p) }
    {
        let reached = reached_by(alloc, &self.store, added, removed)?;
        let mut readers = Vec::with_capacity(alloc, reached.len())?;
        for pair in &reached {
            readers.push(Reader::OfPair(*pair))?;
        }
        self.store.mask(&readers)?;
        Ok(reached)
    }

    /// These keys, and with each answer among them what was read for it, in however many steps: the parts of
    /// the graph alone. It takes time linear in what was read for all of these answers, each of which it
    /// looks up once.
    pub fn all_read(&self, alloc: Global, reads: &Reads) -> Result<Reads, Memory>
        ensures { IfOk result (λ all. (key : Key)
            → Contains all key ↔ IsReadInAll self.now reads.now key) }
    {
        let mut all = Reads::new(alloc);
        let mut answers = IndexSet::new(alloc);
        add_parts(reads, &mut answers, &mut all)?;
        let mut at = 0;
        while at < answers.as_slice().len() {
            let pair = answers.as_slice()[at];
            if let Some(found) = self.find(&pair) {
                add_parts(found.reads, &mut answers, &mut all)?;
            }
            at += 1;
        }
        Ok(all)
    }

    /// Stages the answer of a pair, in the place of what is staged for it: it is remembered from now on. It
    /// takes all the memory that `commit` needs, and logarithmic time for each key. Where it is refused,
    /// nothing changes.
    pub fn stage(&mut self, pair: Pair, rows: Vec<ResultRow>, reads: Reads) -> Result<(), Memory>
        ensures kept { KeepsSame self.old self.new }
        ensures staged { OnOk result (StagesAnswer self.old self.new pair
            (record { rows = rows.items; reads = reads })) }
        ensures refused { OnErr result (StagesSame self.old self.new) }
    {
        let noted = noted_of(PairAnswer { rows, reads });
        self.store.stage(Reader::OfPair(pair), Some(noted))
    }

    /// Keeps what is remembered, and forgets all else: what is masked, and what a staged answer hides. It
    /// takes no memory, and logarithmic time for each key of what is forgotten.
    pub fn commit(&mut self)
        ensures kept { KeepsRecalled self.old self.new }
        ensures staged { self.new.staged ≡ [] }
    {
        self.store.commit();
    }

    /// Forgets what is staged, and remembers again what was masked. It takes no memory, and logarithmic time
    /// for each key of what is forgotten.
    pub fn drop_staged(&mut self)
        ensures kept { KeepsSame self.old self.new }
        ensures staged { self.new.staged ≡ [] }
    {
        self.store.drop_staged();
    }
}

// An answer, as it is stored.
fn noted_of(answer: PairAnswer<Reads>) -> Noted<RowList>
    ensures { as_remembered result ≡ remembered_of answer }
{
    let PairAnswer { rows, reads } = answer;
    Noted {
        value: RowList::new(rows),
        reads,
    }
}

impl Memo for Recall {
    type Noted = Reads;

    ghost use Rattle.std.specs.Prelude.{OnErr, OnOk};
    ghost use Rattle.comp_core.specs.Memo.{RemembersAlso, RemembersSame, remembered_of};
    ghost use Rattle.read_records.specs.Recall.{kept_of, recalled};

    ghost recalled = { recalled };

    ghost kept = { kept_of };

    fn find(&self, pair: &Pair) -> Option<Recalled<'_, Reads>> {
        self.find(pair)
    }

    fn remember(&mut self, pair: Pair, answer: PairAnswer<Reads>) -> Result<(), Memory>
        ensures kept { RemembersSame (kept_of self.old) (kept_of self.new) }
        ensures remembered { OnOk result
            (RemembersAlso (recalled self.old) (recalled self.new) pair (remembered_of answer)) }
        ensures refused { OnErr result (RemembersSame (recalled self.old) (recalled self.new)) }
    {
        self.stage(pair, answer.rows, answer.reads)
    }
}
