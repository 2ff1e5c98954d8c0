ghost use Rattle.std.specs.Prelude.{◌≡◌, ◌≤◌, ◌↔◌, [], length, IsTrue};
ghost use Rattle.graph_view.specs.ListGraph.{plain_graph};
ghost use Rattle.graph_view.specs.Patched.{patched, IsPatch};

use crate::triple_set::{insert_all, remove_all};
use crate::{GraphEdit, GraphView, Key, Lent, Notes, StoreFault};
use indexmap::IndexSet;
use shx_term::{Id, Memory, Pool, PoolFault, Term, Triple};
use std::alloc::Global;
use std::marker::Model;

/// The plain graph: a set of triples, over which each look-up goes whole.
pub struct ListGraph {
    pool: Pool,
    triples: IndexSet<Triple>,
    limit: u64,
}

// A derived drop is no call: each place where one ends would split into one path for each of its parts.
impl Drop for ListGraph {
    fn drop(self) {
        let ListGraph {
            pool: _pool,
            triples: _triples,
            limit: _limit,
        } = self;
    }
}

impl Model for ListGraph {
    ghost use Rattle.graph_view.specs.ListGraph.{PlainGraph, IsWithinLimit};

    ghost Value = { PlainGraph };

    ghost view = { λ a. record { pool = a.pool; triples = a.triples.keys; limit = a.limit } };

    ghost invariant = { λ a. IsWithinLimit a.pool.terms a.triples.keys a.limit };
}

impl ListGraph {
    /// A graph with no triples over the terms of a pool. It takes no memory.
    pub fn new(alloc: Global, pool: Pool, limit: u64) -> ListGraph
        ensures { result ≡ record { pool = pool; triples = []; limit = limit } }
    {
        ListGraph {
            pool,
            triples: IndexSet::new(alloc),
            limit,
        }
    }

    /// The triples, in no order that is told. It takes no memory, and constant time.
    pub fn triples(&self) -> &[Triple]
        ensures { result.now ≡ self.now.triples }
    {
        self.triples.as_slice()
    }

    // Whether the limit allows what an exchange would leave.
    fn has_room_for(&self, removed: &[Triple], added: &[Triple]) -> bool
        requires patch { IsPatch (plain_graph self.now) added.now removed.now }
        ensures { IsTrue result
            ↔ (length (patched (plain_graph self.now) added.now removed.now).triples ≤ self.now.limit) }
    {
        let left = self.triples.len() as u64 - removed.len() as u64;
        added.len() as u64 <= self.limit - left
    }

    fn lent<'a>(&'a self) -> Lent<'a>
        ensures { ⟦<Lent<'a> as GraphView>⟧.graph result ≡ plain_graph self.now }
    {
        Lent::new(&self.pool, self.triples.as_slice())
    }

    /// The pool, without the triples. It takes no memory.
    pub fn into_pool(self) -> Pool
        ensures { result ≡ self.pool }
    {
        let ListGraph {
            pool,
            triples: _,
            limit: _,
        } = self;
        pool
    }
}

impl GraphView for ListGraph {
    ghost use Rattle.graph_view.specs.ListGraph.{plain_graph};

    ghost graph = { plain_graph };

    ghost term_limit = { λ g. g.pool.limit };

    fn pool(&self) -> &Pool {
        &self.pool
    }

    fn len(&self) -> u64 {
        self.triples.len() as u64
    }

    fn contains(&self, t: &Triple) -> bool {
        self.triples.contains(t)
    }

    fn count_up_to(&self, key: &Key, most: u64) -> u64 {
        self.lent().count_up_to(key, most)
    }

    fn objects<N: Notes>(
        &self,
        alloc: Global,
        s: Id,
        p: Id,
        reads: &mut N,
    ) -> Result<Vec<Id>, Memory> {
        self.lent().objects(alloc, s, p, reads)
    }

    fn subjects<N: Notes>(
        &self,
        alloc: Global,
        p: Id,
        o: Id,
        reads: &mut N,
    ) -> Result<Vec<Id>, Memory> {
        self.lent().subjects(alloc, p, o, reads)
    }

    fn objects_unsorted<N: Notes>(
        &self,
        alloc: Global,
        s: Id,
        p: Id,
        reads: &mut N,
    ) -> Result<Vec<Id>, Memory> {
        self.lent().objects_unsorted(alloc, s, p, reads)
    }

    fn subjects_unsorted<N: Notes>(
        &self,
        alloc: Global,
        p: Id,
        o: Id,
        reads: &mut N,
    ) -> Result<Vec<Id>, Memory> {
        self.lent().subjects_unsorted(alloc, p, o, reads)
    }

    fn triples_of<N: Notes>(
        &self,
        alloc: Global,
        s: Id,
        reads: &mut N,
    ) -> Result<Vec<Triple>, Memory> {
        self.lent().triples_of(alloc, s, reads)
    }

    fn triples_with<N: Notes>(
        &self,
        alloc: Global,
        p: Id,
        reads: &mut N,
    ) -> Result<Vec<Triple>, Memory> {
        self.lent().triples_with(alloc, p, reads)
    }

    fn triples_with_unsorted<N: Notes>(
        &self,
        alloc: Global,
        p: Id,
        reads: &mut N,
    ) -> Result<Vec<Triple>, Memory> {
        self.lent().triples_with_unsorted(alloc, p, reads)
    }
}

impl GraphEdit for ListGraph {
    ghost triple_limit = { λ g. g.limit };

    fn limit(&self) -> u64 {
        self.limit
    }

    fn enter(&mut self, term: &Term) -> Result<Id, PoolFault> {
        self.pool.enter(term)
    }

    fn insert(&mut self, t: Triple) -> Result<bool, StoreFault> {
        if self.triples.contains(&t) {
            return Ok(false);
        }
        if self.triples.len() as u64 >= self.limit {
            return Err(StoreFault::TooMany);
        }
        self.triples.insert(t)?;
        Ok(true)
    }

    fn remove(&mut self, t: &Triple) -> bool {
        self.triples.swap_remove(t)
    }

    fn exchange(&mut self, removed: &[Triple], added: &[Triple]) -> Result<(), StoreFault> {
        if !self.has_room_for(removed, added) {
            return Err(StoreFault::TooMany);
        }
        let held = self.triples.len();
        match insert_all(&mut self.triples, added) {
            Ok(()) => {
                remove_all(&mut self.triples, removed);
                Ok(())
            }
            Err(_) => {
                self.triples.truncate(held);
                Err(StoreFault::Memory)
            }
        }
    }

    fn cut(&mut self, len: u32) {
        self.pool.cut(len);
    }
}
