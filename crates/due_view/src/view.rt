ghost use Rattle.std.specs.Prelude.{◌≡◌, Contains, OnOk};

use graph_view::{GraphView, Key, Notes, Reads};
use shx_term::{Id, Memory, Pool, Triple};
use std::alloc::{AllocError, Global};

/// A graph that answers for want of memory at every key but those that are due, so that no look-up goes
/// beside what is noted.
#[derive(Drop)]
pub struct DueView<'a, V: GraphView> {
    base: &'a V,
    due: &'a Reads,
}

impl<'a, V: GraphView> DueView<'a, V> {
    /// The base, which may be asked these keys alone. It takes no memory.
    pub fn new(base: &'a V, due: &'a Reads) -> DueView<'a, V>
        ensures graph { ⟦<DueView<'a, V> as GraphView>⟧.graph result ≡ V.graph base.now }
        ensures term_limit { ⟦<DueView<'a, V> as GraphView>⟧.term_limit result ≡ V.term_limit base.now }
    {
        DueView { base, due }
    }

    /// Whether the keys that are due were read, and no others.
    pub fn are_read(&self, reads: &Reads) -> bool {
        self.due.keys().iter().all(|key| reads.has(key)) && reads.len() == self.due.len()
    }

    fn allow(&self, key: &Key) -> Result<(), Memory>
        ensures { OnOk result (Contains self.now.due.now key.now) }
    {
        if self.due.has(key) {
            Ok(())
        } else {
            Err(AllocError)
        }
    }
}

impl<'a, V: GraphView> GraphView for DueView<'a, V> {
    ghost graph = { λ view. V.graph view.base.now };

    ghost term_limit = { λ view. V.term_limit view.base.now };

    fn pool(&self) -> &Pool {
        self.base.pool()
    }

    fn len(&self) -> u64 {
        self.base.len()
    }

    fn contains(&self, t: &Triple) -> bool {
        self.base.contains(t)
    }

    fn count_up_to(&self, key: &Key, most: u64) -> u64 {
        self.base.count_up_to(key, most)
    }

    fn objects<N: Notes>(
        &self,
        alloc: Global,
        s: Id,
        p: Id,
        reads: &mut N,
    ) -> Result<Vec<Id>, Memory> {
        self.allow(&Key::Out(s, p))?;
        self.base.objects(alloc, s, p, reads)
    }

    fn subjects<N: Notes>(
        &self,
        alloc: Global,
        p: Id,
        o: Id,
        reads: &mut N,
    ) -> Result<Vec<Id>, Memory> {
        self.allow(&Key::In(p, o))?;
        self.base.subjects(alloc, p, o, reads)
    }

    fn objects_unsorted<N: Notes>(
        &self,
        alloc: Global,
        s: Id,
        p: Id,
        reads: &mut N,
    ) -> Result<Vec<Id>, Memory> {
        self.allow(&Key::Out(s, p))?;
        self.base.objects_unsorted(alloc, s, p, reads)
    }

    fn subjects_unsorted<N: Notes>(
        &self,
        alloc: Global,
        p: Id,
        o: Id,
        reads: &mut N,
    ) -> Result<Vec<Id>, Memory> {
        self.allow(&Key::In(p, o))?;
        self.base.subjects_unsorted(alloc, p, o, reads)
    }

    fn triples_of<N: Notes>(
        &self,
        alloc: Global,
        s: Id,
        reads: &mut N,
    ) -> Result<Vec<Triple>, Memory> {
        self.allow(&Key::Subject(s))?;
        self.base.triples_of(alloc, s, reads)
    }

    fn triples_with<N: Notes>(
        &self,
        alloc: Global,
        p: Id,
        reads: &mut N,
    ) -> Result<Vec<Triple>, Memory> {
        self.allow(&Key::Predicate(p))?;
        self.base.triples_with(alloc, p, reads)
    }

    fn triples_with_unsorted<N: Notes>(
        &self,
        alloc: Global,
        p: Id,
        reads: &mut N,
    ) -> Result<Vec<Triple>, Memory> {
        self.allow(&Key::Predicate(p))?;
        self.base.triples_with_unsorted(alloc, p, reads)
    }
}
