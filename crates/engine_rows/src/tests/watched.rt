//! A graph that is watched, and answers for want of memory where it was looked up, or changed, too often.
ghost use Rattle.std.specs.Prelude.{◌≡◌, ◌+◌, ◌≤◌, length, IsTrue};

use graph_view::{GraphEdit, GraphView, Key, ListGraph, Notes, StoreFault};
use shx_term::{Id, Memory, Pool, PoolFault, Term, Triple};
use std::alloc::{AllocError, Global};
use std::cell::Cell;

/// What is counted.
#[derive(Clone, Copy)]
pub(super) enum Watch {
    Nothing,
    /// The look-ups of a key.
    Of(Key),
    /// All look-ups, and changes.
    All,
}

/// A graph of which so much that is counted is answered.
#[derive(Drop)]
pub(super) struct Watched {
    graph: ListGraph,
    watch: Cell<Watch>,
    left: Cell<u64>,
}

impl Watched {
    pub(super) fn new(graph: ListGraph) -> Watched
        ensures { result.graph ≡ graph }
    {
        Watched {
            graph,
            watch: Cell::new(Watch::Nothing),
            left: Cell::new(0),
        }
    }

    pub(super) fn watch(&self, watch: Watch) {
        self.watch.set(watch);
    }

    /// From now on so much of what is counted is answered.
    pub(super) fn allow(&self, most: u64) {
        self.left.set(most);
    }

    // Counts one more, and says whether it is one too many.
    fn is_past(&self) -> bool {
        let left = self.left.get();
        self.left.set(left.saturating_sub(1));
        left == 0
    }

    fn refuses(&self, key: &Key) -> bool {
        match self.watch.get() {
            Watch::Nothing => false,
            Watch::Of(watched) => *key == watched && self.is_past(),
            Watch::All => self.is_past(),
        }
    }

    // A change is refused for want of memory only where there is room for it.
    fn refuses_change(&self, added: &[Triple]) -> bool
        ensures { IsTrue result
            → length self.now.graph.triples + length added.now ≤ self.now.graph.limit }
    {
        match self.watch.get() {
            Watch::Nothing | Watch::Of(_) => false,
            Watch::All => {
                added.len() as u64 <= self.graph.limit() - self.graph.len() && self.is_past()
            }
        }
    }
}

impl GraphView for Watched {
    ghost use Rattle.graph_view.specs.ListGraph.{plain_graph};

    ghost graph = { λ watched. plain_graph watched.graph };

    ghost term_limit = { λ watched. watched.graph.pool.limit };

    fn pool(&self) -> &Pool {
        self.graph.pool()
    }

    fn len(&self) -> u64 {
        self.graph.len()
    }

    fn contains(&self, t: &Triple) -> bool {
        self.graph.contains(t)
    }

    fn count_up_to(&self, key: &Key, most: u64) -> u64 {
        self.graph.count_up_to(key, most)
    }

    fn objects<N: Notes>(
        &self,
        alloc: Global,
        s: Id,
        p: Id,
        reads: &mut N,
    ) -> Result<Vec<Id>, Memory> {
        if self.refuses(&Key::Out(s, p)) {
            return Err(AllocError);
        }
        self.graph.objects(alloc, s, p, reads)
    }

    fn subjects<N: Notes>(
        &self,
        alloc: Global,
        p: Id,
        o: Id,
        reads: &mut N,
    ) -> Result<Vec<Id>, Memory> {
        if self.refuses(&Key::In(p, o)) {
            return Err(AllocError);
        }
        self.graph.subjects(alloc, p, o, reads)
    }

    fn objects_unsorted<N: Notes>(
        &self,
        alloc: Global,
        s: Id,
        p: Id,
        reads: &mut N,
    ) -> Result<Vec<Id>, Memory> {
        if self.refuses(&Key::Out(s, p)) {
            return Err(AllocError);
        }
        self.graph.objects_unsorted(alloc, s, p, reads)
    }

    fn subjects_unsorted<N: Notes>(
        &self,
        alloc: Global,
        p: Id,
        o: Id,
        reads: &mut N,
    ) -> Result<Vec<Id>, Memory> {
        if self.refuses(&Key::In(p, o)) {
            return Err(AllocError);
        }
        self.graph.subjects_unsorted(alloc, p, o, reads)
    }

    fn triples_of<N: Notes>(
        &self,
        alloc: Global,
        s: Id,
        reads: &mut N,
    ) -> Result<Vec<Triple>, Memory> {
        if self.refuses(&Key::Subject(s)) {
            return Err(AllocError);
        }
        self.graph.triples_of(alloc, s, reads)
    }

    fn triples_with<N: Notes>(
        &self,
        alloc: Global,
        p: Id,
        reads: &mut N,
    ) -> Result<Vec<Triple>, Memory> {
        if self.refuses(&Key::Predicate(p)) {
            return Err(AllocError);
        }
        self.graph.triples_with(alloc, p, reads)
    }

    fn triples_with_unsorted<N: Notes>(
        &self,
        alloc: Global,
        p: Id,
        reads: &mut N,
    ) -> Result<Vec<Triple>, Memory> {
        if self.refuses(&Key::Predicate(p)) {
            return Err(AllocError);
        }
        self.graph.triples_with_unsorted(alloc, p, reads)
    }
}

impl GraphEdit for Watched {
    ghost triple_limit = { λ watched. watched.graph.limit };

    fn limit(&self) -> u64 {
        self.graph.limit()
    }

    fn enter(&mut self, term: &Term) -> Result<Id, PoolFault> {
        self.graph.enter(term)
    }

    fn insert(&mut self, t: Triple) -> Result<bool, StoreFault> {
        self.graph.insert(t)
    }

    fn remove(&mut self, t: &Triple) -> bool {
        self.graph.remove(t)
    }

    fn exchange(&mut self, removed: &[Triple], added: &[Triple]) -> Result<(), StoreFault> {
        if self.refuses_change(added) {
            return Err(StoreFault::Memory);
        }
        self.graph.exchange(removed, added)
    }

    fn cut(&mut self, len: u32) {
        self.graph.cut(len);
    }
}
