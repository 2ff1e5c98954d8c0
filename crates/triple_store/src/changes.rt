//! The triples of a change, in indexes, so that what a change does to a look-up costs what it touches there.
ghost use Rattle.std.specs.Prelude.{◌≡◌, map, length, IfOk};
ghost use Rattle.std.specs.List.{list_any, IsDistinct};
ghost use Rattle.shx_term.specs.Triple.{same_triple};
ghost use Rattle.shx_term.specs.Members.{SameMembers};
ghost use Rattle.graph_view.specs.declared.key.Key.{Key};
ghost use Rattle.graph_view.specs.Key.{look};

use crate::indexes::Indexes;
use graph_view::Key;
use shx_term::{Id, Memory, Triple};
use std::alloc::Global;
use std::marker::Model;

/// Some triples, and three indexes of them. Contracts see the list of the triples.
#[derive(Drop)]
pub(crate) struct Changes<'a> {
    triples: &'a [Triple],
    indexes: Indexes,
}

impl<'a> Model for Changes<'a> {
    ghost use Rattle.std.specs.Prelude.{List};
    ghost use Rattle.std.specs.List.{IsDistinct};
    ghost use Rattle.shx_term.specs.declared.triple.Triple.{Triple};
    ghost use Rattle.shx_term.specs.Members.{SameMembers};
    ghost use Rattle.shx_term.specs.Triple.{same_triple};

    ghost Value = { List Triple };

    ghost view = { λ a. a.triples.now };

    ghost invariant = { λ a. SameMembers a.triples.now a.indexes × IsDistinct same_triple a.triples.now };
}

impl<'a> Changes<'a> {
    /// By one sort for each index; each triple stands there once.
    pub(crate) fn new(alloc: Global, triples: &'a [Triple]) -> Result<Changes<'a>, Memory>
        requires { IsDistinct same_triple triples.now }
        ensures { IfOk result (λ changes. changes ≡ triples.now) }
    {
        let indexes = Indexes::sorted(alloc, triples)?;
        Ok(Changes { triples, indexes })
    }

    /// How many there are.
    pub(crate) fn len(&self) -> usize
        ensures { result ≡ length self.now }
    {
        self.triples.len()
    }

    /// Whether the triple is one of them. It takes logarithmic time.
    pub(crate) fn has(&self, t: &Triple) -> bool
        ensures { result ≡ list_any (λ u. same_triple u t.now) self.now }
    {
        self.indexes.contains(t)
    }

    pub(crate) fn objects(&self, alloc: Global, s: Id, p: Id) -> Result<Vec<Id>, Memory>
        ensures { IfOk result (λ found.
            SameMembers (map (λ t. t.o) (look self.now (Key.Out s p))) found.items) }
    {
        self.indexes.objects(alloc, s, p)
    }

    pub(crate) fn subjects(&self, alloc: Global, p: Id, o: Id) -> Result<Vec<Id>, Memory>
        ensures { IfOk result (λ found.
            SameMembers (map (λ t. t.s) (look self.now (Key.In p o))) found.items) }
    {
        self.indexes.subjects(alloc, p, o)
    }

    pub(crate) fn triples_of(&self, alloc: Global, s: Id) -> Result<Vec<Triple>, Memory>
        ensures { IfOk result (λ found. SameMembers (look self.now (Key.Subject s)) found.items) }
    {
        self.indexes.triples_of(alloc, s)
    }

    pub(crate) fn triples_with(&self, alloc: Global, p: Id) -> Result<Vec<Triple>, Memory>
        ensures { IfOk result (λ found. SameMembers (look self.now (Key.Predicate p)) found.items) }
    {
        self.indexes.triples_with(alloc, p)
    }

    /// How many of them touch the key. It takes no memory.
    pub(crate) fn count(&self, key: &Key) -> u64
        ensures { result ≡ length (look self.now key.now) }
    {
        self.indexes.count_up_to(key, self.indexes.len()) as u64
    }
}
