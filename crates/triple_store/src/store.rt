ghost use Rattle.std.specs.Prelude.{◌≡◌, ◌≤◌, length, All, IfOk};
ghost use Rattle.graph_view.specs.Graph.{IsKnownTriple, graph_of};
ghost use Rattle.graph_view.specs.ListGraph.{plain_graph};
ghost use Rattle.graph_view.specs.SameGraph.{SameGraph};

use crate::indexes::Indexes;
use graph_view::{GraphEdit, GraphView, Key, ListGraph, Notes, StoreFault};
use shx_term::{Id, Memory, Pool, PoolFault, Term, Triple};
use std::alloc::Global;
use std::marker::Model;

/// A pool and the triples of its numbers, in three indexes. Contracts see the same as of a `ListGraph`.
pub struct Store {
    pool: Pool,
    indexes: Indexes,
    limit: u64,
}

// A derived drop is no call: each place where one ends would split into one path for each of its parts.
impl Drop for Store {
    fn drop(self) {
        let Store {
            pool: _pool,
            indexes: _indexes,
            limit: _limit,
        } = self;
    }
}

impl Model for Store {
    ghost use Rattle.graph_view.specs.ListGraph.{PlainGraph, IsWithinLimit};

    ghost Value = { PlainGraph };

    ghost view = { λ a. record { pool = a.pool; triples = a.indexes; limit = a.limit } };

    ghost invariant = { λ a. IsWithinLimit a.pool.terms a.indexes a.limit };
}

impl Store {
    /// The store of a plain graph, with its pool and its limit. It takes time and memory as `from_triples`
    /// does.
    pub fn from_list(alloc: Global, graph: ListGraph) -> Result<Store, Memory>
        ensures pool { IfOk result (λ store. store.pool ≡ graph.pool) }
        ensures limit { IfOk result (λ store. store.limit ≡ graph.limit) }
        ensures same { IfOk result (λ store. SameGraph (plain_graph graph) (plain_graph store)) }
    {
        let terms = graph.pool().len() as usize;
        let limit = graph.limit();
        let triples = Vec::from_slice(alloc, graph.triples())?;
        let indexes = Indexes::from_triples(alloc, terms, triples)?;
        prove!(indexes.len() as u64 == graph.len());
        let pool = graph.into_pool();
        Ok(Store {
            pool,
            indexes,
            limit,
        })
    }

    /// The graph of these triples, each once, over the terms of a pool. It takes linear time in the number of
    /// triples and of terms, and `O(n log n)` in that of triples where there are many more terms. Until it
    /// returns it takes memory for the triples once more, and beside that either four bytes for each term or
    /// what a sort of the triples takes.
    pub fn from_triples(
        alloc: Global,
        pool: Pool,
        triples: Vec<Triple>,
        limit: u64,
    ) -> Result<Store, Memory>
        requires known { All (IsKnownTriple pool.terms) triples.items }
        requires few { length triples.items ≤ limit }
        ensures pool { IfOk result (λ store. store.pool ≡ pool) }
        ensures limit { IfOk result (λ store. store.limit ≡ limit) }
        ensures holds { IfOk result (λ store.
            SameGraph (graph_of pool.terms triples.items) (plain_graph store)) }
    {
        let terms = pool.len() as usize;
        let indexes = Indexes::from_triples(alloc, terms, triples)?;
        // They are distinct.
        let _ = indexes.len();
        Ok(Store {
            pool,
            indexes,
            limit,
        })
    }

    /// The pool, without the triples. It takes no memory.
    pub fn into_pool(self) -> Pool
        ensures { result ≡ self.pool }
    {
        let Store {
            pool,
            indexes: _,
            limit: _,
        } = self;
        pool
    }
}

impl GraphView for Store {
    ghost use Rattle.graph_view.specs.ListGraph.{plain_graph};

    ghost graph = { plain_graph };

    ghost term_limit = { λ g. g.pool.limit };

    fn pool(&self) -> &Pool {
        &self.pool
    }

    fn len(&self) -> u64 {
        self.indexes.len() as u64
    }

    /// It takes logarithmic time.
    fn contains(&self, t: &Triple) -> bool {
        self.indexes.contains(t)
    }

    /// It takes logarithmic time, and as many steps as it counts.
    fn count_up_to(&self, key: &Key, most: u64) -> u64 {
        self.indexes.count_up_to(key, most as usize) as u64
    }

    fn objects<N: Notes>(
        &self,
        alloc: Global,
        s: Id,
        p: Id,
        reads: &mut N,
    ) -> Result<Vec<Id>, Memory> {
        let found = self.indexes.objects(alloc, s, p)?;
        reads.add(Key::Out(s, p))?;
        Ok(self.pool.in_order(found))
    }

    fn subjects<N: Notes>(
        &self,
        alloc: Global,
        p: Id,
        o: Id,
        reads: &mut N,
    ) -> Result<Vec<Id>, Memory> {
        let found = self.indexes.subjects(alloc, p, o)?;
        reads.add(Key::In(p, o))?;
        Ok(self.pool.in_order(found))
    }

    fn objects_unsorted<N: Notes>(
        &self,
        alloc: Global,
        s: Id,
        p: Id,
        reads: &mut N,
    ) -> Result<Vec<Id>, Memory> {
        let found = self.indexes.objects(alloc, s, p)?;
        reads.add(Key::Out(s, p))?;
        Ok(found)
    }

    fn subjects_unsorted<N: Notes>(
        &self,
        alloc: Global,
        p: Id,
        o: Id,
        reads: &mut N,
    ) -> Result<Vec<Id>, Memory> {
        let found = self.indexes.subjects(alloc, p, o)?;
        reads.add(Key::In(p, o))?;
        Ok(found)
    }

    fn triples_of<N: Notes>(
        &self,
        alloc: Global,
        s: Id,
        reads: &mut N,
    ) -> Result<Vec<Triple>, Memory> {
        let found = self.indexes.triples_of(alloc, s)?;
        reads.add(Key::Subject(s))?;
        Ok(self.pool.triples_in_order(found))
    }

    fn triples_with<N: Notes>(
        &self,
        alloc: Global,
        p: Id,
        reads: &mut N,
    ) -> Result<Vec<Triple>, Memory> {
        let found = self.indexes.triples_with(alloc, p)?;
        reads.add(Key::Predicate(p))?;
        Ok(self.pool.triples_in_order(found))
    }

    fn triples_with_unsorted<N: Notes>(
        &self,
        alloc: Global,
        p: Id,
        reads: &mut N,
    ) -> Result<Vec<Triple>, Memory> {
        let found = self.indexes.triples_with(alloc, p)?;
        reads.add(Key::Predicate(p))?;
        Ok(found)
    }
}

impl GraphEdit for Store {
    ghost triple_limit = { λ g. g.limit };

    fn limit(&self) -> u64 {
        self.limit
    }

    fn enter(&mut self, term: &Term) -> Result<Id, PoolFault> {
        self.pool.enter(term)
    }

    /// It takes logarithmic time. Whether the triple is held is looked up beforehand only at the limit.
    fn insert(&mut self, t: Triple) -> Result<bool, StoreFault> {
        if self.indexes.len() as u64 >= self.limit && !self.indexes.contains(&t) {
            return Err(StoreFault::TooMany);
        }
        Ok(self.indexes.insert(t)?)
    }

    /// It takes logarithmic time.
    fn remove(&mut self, t: &Triple) -> bool {
        self.indexes.remove(t)
    }

    /// It takes logarithmic time for each triple.
    fn exchange(&mut self, removed: &[Triple], added: &[Triple]) -> Result<(), StoreFault> {
        let left = self.indexes.len() as u64 - removed.len() as u64;
        if added.len() as u64 > self.limit - left {
            return Err(StoreFault::TooMany);
        }
        self.indexes.insert_all(added)?;
        self.indexes.remove_all(removed);
        let _ = self.indexes.len();
        Ok(())
    }

    fn cut(&mut self, len: u32) {
        self.pool.cut(len);
    }
}
