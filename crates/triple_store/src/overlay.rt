ghost use Rattle.std.specs.Prelude.{◌≡◌, ◌+◌, ◌<◌, ◌^◌, not, filter, length, IfOk};
ghost use Rattle.std.specs.List.{list_any, IsDistinct};
ghost use Rattle.std.proofs.lemmas.Map.Keys.{IsDistinct-prop};
ghost use Rattle.shx_term.specs.Triple.{same_triple};
ghost use Rattle.graph_view.specs.declared.key.Key.{Key};
ghost use Rattle.graph_view.specs.Graph.{AllKnown};
ghost use Rattle.graph_view.specs.Key.{look};
ghost use Rattle.graph_view.specs.Patched.{without, patched, IsPatch};

use crate::changes::Changes;
use graph_view::{GraphView, Key, Notes, merged};
use shx_term::{Id, Memory, Pool, Triple};
use std::alloc::Global;

/// A base graph without some triples and with others, of which there may be many: both are indexed, and a
/// look-up costs that of the base and what the change has under its key. The base stays as it is.
#[derive(Drop)]
pub struct Overlay<'a, V: GraphView> {
    base: &'a V,
    added: Changes<'a>,
    removed: Changes<'a>,
    ghost known: { AllKnown (patched (V.graph base.now) added removed) },
    ghost distinct: { IsDistinct same_triple
        (patched (V.graph base.now) added removed).triples } by { IsDistinct-prop same_triple _ },
    ghost all_held: { length (without same_triple (V.graph base.now).triples removed) + length removed
        ≡ length (V.graph base.now).triples },
    ghost held_by_key: { (key : Key)
        → length (look (without same_triple (V.graph base.now).triples removed) key)
        + length (look removed key) ≡ length (look (V.graph base.now).triples key) },
    ghost countable: { length (patched (V.graph base.now) added removed).triples < 2 ^ 64 },
}

impl<'a, V: GraphView> Overlay<'a, V> {
    /// The base without the removed triples and with the added ones. It takes time `O(n log n)` in their
    /// number.
    pub fn new(
        alloc: Global,
        base: &'a V,
        added: &'a [Triple],
        removed: &'a [Triple],
    ) -> Result<Overlay<'a, V>, Memory>
        requires patch { IsPatch (V.graph base.now) added.now removed.now }
        requires countable { length (patched (V.graph base.now) added.now removed.now).triples < 2 ^ 64 }
        ensures graph { IfOk result (λ view. ⟦<Overlay<'a, V> as GraphView>⟧.graph view
            ≡ patched (V.graph base.now) added.now removed.now) }
        ensures term_limit { IfOk result (λ view.
            ⟦<Overlay<'a, V> as GraphView>⟧.term_limit view ≡ V.term_limit base.now) }
    {
        let _ = base.pool();
        let _ = base.len();
        let new = Changes::new(alloc, added)?;
        let gone = Changes::new(alloc, removed)?;
        Ok(Overlay {
            base,
            added: new,
            removed: gone,
        })
    }
}

impl<'a, V: GraphView> GraphView for Overlay<'a, V> {
    ghost graph = { λ view. patched (V.graph view.base.now) view.added view.removed };

    ghost term_limit = { λ view. V.term_limit view.base.now };

    fn pool(&self) -> &Pool {
        self.base.pool()
    }

    fn len(&self) -> u64 {
        self.base.len() - self.removed.len() as u64 + self.added.len() as u64
    }

    fn contains(&self, t: &Triple) -> bool {
        self.added.has(t) || (self.base.contains(t) && !self.removed.has(t))
    }

    fn count_up_to(&self, key: &Key, most: u64) -> u64 {
        // No more than the whole graph holds, which is countable.
        let _ = self.base.len();
        let gone = self.removed.count(key);
        let held = self.base.count_up_to(key, most.saturating_add(gone));
        let new = self.added.count(key);
        (held - gone).saturating_add(new).min(most)
    }

    fn objects<N: Notes>(
        &self,
        alloc: Global,
        s: Id,
        p: Id,
        reads: &mut N,
    ) -> Result<Vec<Id>, Memory> {
        let mut found = self.base.objects(alloc, s, p, reads)?;
        leave_out_objects(&self.removed, s, p, &mut found);
        let new = self.added.objects(alloc, s, p)?;
        merged(alloc, self.base.pool(), found, new)
    }

    fn subjects<N: Notes>(
        &self,
        alloc: Global,
        p: Id,
        o: Id,
        reads: &mut N,
    ) -> Result<Vec<Id>, Memory> {
        let mut found = self.base.subjects(alloc, p, o, reads)?;
        leave_out_subjects(&self.removed, p, o, &mut found);
        let new = self.added.subjects(alloc, p, o)?;
        merged(alloc, self.base.pool(), found, new)
    }

    fn objects_unsorted<N: Notes>(
        &self,
        alloc: Global,
        s: Id,
        p: Id,
        reads: &mut N,
    ) -> Result<Vec<Id>, Memory> {
        self.objects(alloc, s, p, reads)
    }

    fn subjects_unsorted<N: Notes>(
        &self,
        alloc: Global,
        p: Id,
        o: Id,
        reads: &mut N,
    ) -> Result<Vec<Id>, Memory> {
        self.subjects(alloc, p, o, reads)
    }

    fn triples_of<N: Notes>(
        &self,
        alloc: Global,
        s: Id,
        reads: &mut N,
    ) -> Result<Vec<Triple>, Memory> {
        let mut found = self.base.triples_of(alloc, s, reads)?;
        leave_out(&self.removed, &mut found);
        let new = self.added.triples_of(alloc, s)?;
        merged(alloc, self.base.pool(), found, new)
    }

    fn triples_with<N: Notes>(
        &self,
        alloc: Global,
        p: Id,
        reads: &mut N,
    ) -> Result<Vec<Triple>, Memory> {
        let mut found = self.base.triples_with(alloc, p, reads)?;
        leave_out(&self.removed, &mut found);
        let new = self.added.triples_with(alloc, p)?;
        merged(alloc, self.base.pool(), found, new)
    }

    fn triples_with_unsorted<N: Notes>(
        &self,
        alloc: Global,
        p: Id,
        reads: &mut N,
    ) -> Result<Vec<Triple>, Memory> {
        self.triples_with(alloc, p, reads)
    }
}

fn leave_out(removed: &Changes, found: &mut Vec<Triple>)
    ensures { found.new.items ≡ without same_triple found.old.items removed.now }
{
    found.retain(|t| !removed.has(t));
}

// The objects of which the triple with this subject and predicate is not removed.
fn leave_out_objects(removed: &Changes, s: Id, p: Id, found: &mut Vec<Id>)
    ensures { found.new.items ≡ filter (λ o. not (list_any (λ u.
        same_triple u (record { s = s; p = p; o = o })) removed.now)) found.old.items }
{
    found.retain(|o| !removed.has(&Triple { s, p, o: *o }));
}

// The subjects of which the triple with this predicate and object is not removed.
fn leave_out_subjects(removed: &Changes, p: Id, o: Id, found: &mut Vec<Id>)
    ensures { found.new.items ≡ filter (λ s. not (list_any (λ u.
        same_triple u (record { s = s; p = p; o = o })) removed.now)) found.old.items }
{
    found.retain(|s| !removed.has(&Triple { s: *s, p, o }));
}
