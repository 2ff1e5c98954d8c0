ghost use Rattle.std.specs.Prelude.{List, [], ◌∷◌, ◌++◌, OnOk};
ghost use Rattle.graph_view.specs.declared.key.Key.{Key};
ghost use Rattle.graph_view.specs.Notes.{IsNoting};

use crate::{Key, Reads};
use shx_term::Memory;
use std::alloc::Global;

/// What takes the keys that look-ups read.
pub trait Notes: Drop {
    /// A later state has noted these keys beside what an earlier one had.
    ghost notes: { Self → Self → List Key → Type 0 };

    /// What has been noted since there was nothing.
    ghost has: { Self → List Key → Type 0 };

    /// Nothing is noted. It takes no memory.
    fn new(alloc: Global) -> Self
        ensures { has result [] };

    /// Notes one key.
    fn add(&mut self, key: Key) -> Result<(), Memory>
        ensures { OnOk result (notes self.old self.new (key ∷ [])) };

    /// Notes keys that were read before.
    fn add_reads(&mut self, reads: &Reads) -> Result<(), Memory>
        ensures { OnOk result (notes self.old self.new reads.now) };

    /// Notes what others have noted.
    fn add_all(&mut self, other: &Self) -> Result<(), Memory>
        ensures { (keys : List Key) → has other.now keys → OnOk result (notes self.old self.new keys) };

    /// Gives back the memory that is not needed, if that is worth while.
    fn pack(&mut self, alloc: Global) -> Result<(), Memory>
        ensures { (keys : List Key) → has self.old keys → OnOk result (has self.new keys) };

    ghost laws: { IsNoting notes };

    ghost has_more: { (a b : Self) (keys more : List Key)
        → has a keys → notes a b more → has b (keys ++ more) };
}

impl Notes for Reads {
    ghost use Rattle.shx_term.specs.Members.{Adds, SameMembers};
    ghost use Rattle.graph_view.specs.inner.NotesLaws.{reads_laws, reads_more};

    ghost notes = { Adds };

    ghost has = { SameMembers };

    ghost laws = { reads_laws };

    ghost has_more = { reads_more };

    fn new(alloc: Global) -> Reads {
        Reads::new(alloc)
    }

    fn add(&mut self, key: Key) -> Result<(), Memory> {
        self.add(key)
    }

    fn add_reads(&mut self, reads: &Reads) -> Result<(), Memory> {
        self.add_all(reads)
    }

    fn add_all(&mut self, other: &Reads) -> Result<(), Memory> {
        self.add_all(other)
    }

    fn pack(&mut self, alloc: Global) -> Result<(), Memory> {
        self.pack(alloc)
    }
}

/// Keeps nothing of what is read, where nobody asks for it.
#[derive(Drop)]
pub struct Unnoted {}

impl Notes for Unnoted {
    ghost use Rattle.graph_view.specs.inner.NotesLaws.{unnoted_laws};

    ghost notes = { λ a b keys. Unit };

    ghost has = { λ a keys. Unit };

    ghost laws = { unnoted_laws };

    ghost has_more = { λ a b keys more is noted. tt };

    fn new(_alloc: Global) -> Unnoted {
        Unnoted {}
    }

    fn add(&mut self, _key: Key) -> Result<(), Memory> {
        Ok(())
    }

    fn add_reads(&mut self, _reads: &Reads) -> Result<(), Memory> {
        Ok(())
    }

    fn add_all(&mut self, _other: &Unnoted) -> Result<(), Memory> {
        Ok(())
    }

    fn pack(&mut self, _alloc: Global) -> Result<(), Memory> {
        Ok(())
    }
}
