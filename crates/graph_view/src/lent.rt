ghost use Rattle.std.specs.Prelude.{◌≡◌, All};
ghost use Rattle.std.specs.List.{IsDistinct};
ghost use Rattle.std.proofs.lemmas.Map.Keys.{IsDistinct-prop};
ghost use Rattle.shx_term.specs.Triple.{same_triple};
ghost use Rattle.graph_view.specs.Graph.{IsKnownTriple};

use crate::among::count_among;
use crate::{GraphView, Key, Notes, objects_among, subjects_among, triples_among};
use shx_term::{Id, Memory, Pool, Triple};
use std::alloc::Global;

/// A pool and some triples of its numbers, seen as a graph. Each look-up goes over all triples.
#[derive(Drop)]
pub struct Lent<'a> {
    pool: &'a Pool,
    triples: &'a [Triple],
    ghost distinct: { IsDistinct same_triple triples.now } by { IsDistinct-prop same_triple _ },
    ghost known: { All (IsKnownTriple pool.now.terms) triples.now },
}

impl<'a> Lent<'a> {
    /// The graph of these triples over the terms of a pool. It takes no memory.
    pub fn new(pool: &'a Pool, triples: &'a [Triple]) -> Lent<'a>
        requires distinct { IsDistinct same_triple triples.now }
        requires known { All (IsKnownTriple pool.now.terms) triples.now }
        ensures graph { ⟦<Lent<'a> as GraphView>⟧.graph result
            ≡ record { terms = pool.now.terms; triples = triples.now } }
        ensures term_limit { ⟦<Lent<'a> as GraphView>⟧.term_limit result ≡ pool.now.limit }
    {
        Lent { pool, triples }
    }
}

impl<'a> GraphView for Lent<'a> {
    ghost graph = { λ view. record { terms = view.pool.now.terms; triples = view.triples.now } };

    ghost term_limit = { λ view. view.pool.now.limit };

    fn pool(&self) -> &Pool {
        self.pool
    }

    fn len(&self) -> u64 {
        self.triples.len() as u64
    }

    fn contains(&self, t: &Triple) -> bool {
        self.triples.contains(t)
    }

    fn count_up_to(&self, key: &Key, most: u64) -> u64 {
        count_among(self.triples, key).min(most)
    }

    fn objects<N: Notes>(
        &self,
        alloc: Global,
        s: Id,
        p: Id,
        reads: &mut N,
    ) -> Result<Vec<Id>, Memory> {
        let key = Key::Out(s, p);
        let found = objects_among(alloc, self.triples, &key)?;
        reads.add(key)?;
        Ok(self.pool.in_order(found))
    }

    fn subjects<N: Notes>(
        &self,
        alloc: Global,
        p: Id,
        o: Id,
        reads: &mut N,
    ) -> Result<Vec<Id>, Memory> {
        let key = Key::In(p, o);
        let found = subjects_among(alloc, self.triples, &key)?;
        reads.add(key)?;
        Ok(self.pool.in_order(found))
    }

    fn objects_unsorted<N: Notes>(
        &self,
        alloc: Global,
        s: Id,
        p: Id,
        reads: &mut N,
    ) -> Result<Vec<Id>, Memory> {
        let key = Key::Out(s, p);
        let found = objects_among(alloc, self.triples, &key)?;
        reads.add(key)?;
        Ok(found)
    }

    fn subjects_unsorted<N: Notes>(
        &self,
        alloc: Global,
        p: Id,
        o: Id,
        reads: &mut N,
    ) -> Result<Vec<Id>, Memory> {
        let key = Key::In(p, o);
        let found = subjects_among(alloc, self.triples, &key)?;
        reads.add(key)?;
        Ok(found)
    }

    fn triples_of<N: Notes>(
        &self,
        alloc: Global,
        s: Id,
        reads: &mut N,
    ) -> Result<Vec<Triple>, Memory> {
        let key = Key::Subject(s);
        let found = triples_among(alloc, self.triples, &key)?;
        reads.add(key)?;
        Ok(self.pool.triples_in_order(found))
    }

    fn triples_with<N: Notes>(
        &self,
        alloc: Global,
        p: Id,
        reads: &mut N,
    ) -> Result<Vec<Triple>, Memory> {
        let key = Key::Predicate(p);
        let found = triples_among(alloc, self.triples, &key)?;
        reads.add(key)?;
        Ok(self.pool.triples_in_order(found))
    }

    fn triples_with_unsorted<N: Notes>(
        &self,
        alloc: Global,
        p: Id,
        reads: &mut N,
    ) -> Result<Vec<Triple>, Memory> {
        let key = Key::Predicate(p);
        let found = triples_among(alloc, self.triples, &key)?;
        reads.add(key)?;
        Ok(found)
    }
}
