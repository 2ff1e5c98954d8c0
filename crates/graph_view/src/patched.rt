ghost use Rattle.std.specs.Prelude.{◌≡◌, ◌+◌, ◌<◌, ◌^◌, List, length, All};
ghost use Rattle.std.specs.List.{IsDistinct};
ghost use Rattle.std.proofs.lemmas.Map.Keys.{IsDistinct-prop};
ghost use Rattle.shx_term.specs.Triple.{same_triple};
ghost use Rattle.shx_term.specs.declared.triple.Triple.{Triple};
ghost use Rattle.graph_view.specs.Agree.{Agree};
ghost use Rattle.graph_view.specs.Graph.{Graph, AllKnown};
ghost use Rattle.graph_view.specs.declared.key.Key.{Key};
ghost use Rattle.graph_view.specs.Key.{look};
ghost use Rattle.graph_view.specs.Patched.{without, patched, IsPatch, IsBeside};
ghost use Rattle.graph_view.specs.Valid.{IsValidTriple, IsValidView};

use crate::among::count_among;
use crate::changed::changed;
use crate::{GraphView, Key, Notes, objects_among, subjects_among, triples_among};
use shx_term::{Id, Memory, Pool, Triple};
use std::alloc::Global;

/// A base graph without some triples and with others, so that an edit is evaluated before it is made. The
/// base stays as it is.
///
/// A look-up costs that of the base and one pass over the changed triples. Where none of them touches its key
/// it gives what the base gives; else what is removed is left out, and each added triple is put at its place,
/// which a binary search finds. It is meant for a change of a few triples. For many an overlay with an index
/// of its own is better, since each look-up passes the whole change.
#[derive(Drop)]
pub struct Patched<'a, V: GraphView> {
    base: &'a V,
    added: &'a [Triple],
    removed: &'a [Triple],
    ghost known: { AllKnown (patched (V.graph base.now) added.now removed.now) },
    ghost distinct: { IsDistinct same_triple
        (patched (V.graph base.now) added.now removed.now).triples } by { IsDistinct-prop same_triple _ },
    ghost all_held: { length (without same_triple (V.graph base.now).triples removed.now) + length removed.now
        ≡ length (V.graph base.now).triples },
    ghost held_by_key: { (key : Key)
        → length (look (without same_triple (V.graph base.now).triples removed.now) key)
        + length (look removed.now key) ≡ length (look (V.graph base.now).triples key) },
    ghost countable: { length (patched (V.graph base.now) added.now removed.now).triples < 2 ^ 64 },
}

impl<'a, V: GraphView> Patched<'a, V> {
    /// The base without the removed triples and with the added ones. It takes no memory.
    pub fn new(base: &'a V, added: &'a [Triple], removed: &'a [Triple]) -> Patched<'a, V>
        requires patch { IsPatch (V.graph base.now) added.now removed.now }
        requires countable { length (patched (V.graph base.now) added.now removed.now).triples < 2 ^ 64 }
        ensures graph { ⟦<Patched<'a, V> as GraphView>⟧.graph result
            ≡ patched (V.graph base.now) added.now removed.now }
        ensures term_limit { ⟦<Patched<'a, V> as GraphView>⟧.term_limit result ≡ V.term_limit base.now }
    {
        let _ = base.pool();
        let _ = base.len();
        Patched {
            base,
            added,
            removed,
        }
    }
}

impl<'a, V: GraphView> GraphView for Patched<'a, V> {
    ghost graph = { λ view. patched (V.graph view.base.now) view.added.now view.removed.now };

    ghost term_limit = { λ view. V.term_limit view.base.now };

    fn pool(&self) -> &Pool {
        self.base.pool()
    }

    fn len(&self) -> u64 {
        self.base.len() - self.removed.len() as u64 + self.added.len() as u64
    }

    fn contains(&self, t: &Triple) -> bool {
        self.added.contains(t) || (self.base.contains(t) && !self.removed.contains(t))
    }

    fn count_up_to(&self, key: &Key, most: u64) -> u64 {
        // No more than the whole graph holds, which is countable.
        let _ = self.base.len();
        let gone = count_among(self.removed, key);
        let held = self.base.count_up_to(key, most.saturating_add(gone));
        let new = count_among(self.added, key);
        (held - gone).saturating_add(new).min(most)
    }

    fn objects<N: Notes>(
        &self,
        alloc: Global,
        s: Id,
        p: Id,
        reads: &mut N,
    ) -> Result<Vec<Id>, Memory> {
        let key = Key::Out(s, p);
        let found = self.base.objects(alloc, s, p, reads)?;
        let gone = objects_among(alloc, self.removed, &key)?;
        let new = objects_among(alloc, self.added, &key)?;
        changed(alloc, self.base.pool(), found, &gone, new)
    }

    fn subjects<N: Notes>(
        &self,
        alloc: Global,
        p: Id,
        o: Id,
        reads: &mut N,
    ) -> Result<Vec<Id>, Memory> {
        let key = Key::In(p, o);
        let found = self.base.subjects(alloc, p, o, reads)?;
        let gone = subjects_among(alloc, self.removed, &key)?;
        let new = subjects_among(alloc, self.added, &key)?;
        changed(alloc, self.base.pool(), found, &gone, new)
    }

    fn objects_unsorted<N: Notes>(
        &self,
        alloc: Global,
        s: Id,
        p: Id,
        reads: &mut N,
    ) -> Result<Vec<Id>, Memory> {
        self.objects(alloc, s, p, reads)
    }

    fn subjects_unsorted<N: Notes>(
        &self,
        alloc: Global,
        p: Id,
        o: Id,
        reads: &mut N,
    ) -> Result<Vec<Id>, Memory> {
        self.subjects(alloc, p, o, reads)
    }

    fn triples_of<N: Notes>(
        &self,
        alloc: Global,
        s: Id,
        reads: &mut N,
    ) -> Result<Vec<Triple>, Memory> {
        let key = Key::Subject(s);
        let found = self.base.triples_of(alloc, s, reads)?;
        let gone = triples_among(alloc, self.removed, &key)?;
        let new = triples_among(alloc, self.added, &key)?;
        changed(alloc, self.base.pool(), found, &gone, new)
    }

    fn triples_with<N: Notes>(
        &self,
        alloc: Global,
        p: Id,
        reads: &mut N,
    ) -> Result<Vec<Triple>, Memory> {
        let key = Key::Predicate(p);
        let found = self.base.triples_with(alloc, p, reads)?;
        let gone = triples_among(alloc, self.removed, &key)?;
        let new = triples_among(alloc, self.added, &key)?;
        changed(alloc, self.base.pool(), found, &gone, new)
    }

    fn triples_with_unsorted<N: Notes>(
        &self,
        alloc: Global,
        p: Id,
        reads: &mut N,
    ) -> Result<Vec<Triple>, Memory> {
        self.triples_with(alloc, p, reads)
    }
}

/// A change changes no more than it says: the patched graph agrees with the base on each key that no changed
/// triple touches, and is valid where the base and the added triples are.
pub fn patches_agree()
    ensures beside { (g : Graph) (added removed : List Triple)
        → Agree g (patched g added removed) (IsBeside added removed) }
    ensures valid { (g : Graph) (added removed : List Triple) → IsValidView g
        → All (IsValidTriple g.terms) added → IsValidView (patched g added removed) }
{}
