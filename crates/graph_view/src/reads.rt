ghost use Rattle.std.specs.Prelude.{◌≡◌, ◌<◌, ◌↔◌, ℕ, [], ◌∷◌, Some, length, take, slice_get};
ghost use Rattle.std.specs.Prelude.{Contains, IsTrue, OnOk, OnErr};
ghost use Rattle.std.specs.List.{IsDistinct};
ghost use Rattle.graph_view.specs.Key.{same_key};
ghost use Rattle.shx_term.specs.Members.{Adds};
ghost use Rattle.graph_view.specs.Reads.{IsTouchedBy};

use crate::Key;
use crate::keys::Keys;
use shx_term::{Memory, Triple};
use std::alloc::Global;
use std::marker::Model;

/// The keys that were read, each once. Contracts see them as a list, and speak of its members alone.
///
/// Up to 16 keys take 12 bytes each in one allocation, and are searched; more are found by hash. Once they
/// are packed, up to 64 are searched.
#[derive(Drop)]
pub struct Reads {
    keys: Keys,
}

impl Model for Reads {
    ghost use Rattle.std.specs.Prelude.{List};
    ghost use Rattle.graph_view.specs.declared.key.Key.{Key};

    ghost Value = { List Key };

    ghost use Rattle.std.specs.List.{IsDistinct};
    ghost use Rattle.graph_view.specs.Key.{same_key};
    ghost use Rattle.graph_view.specs.inner.HeldKeys.{held_keys};

    ghost view = { λ a. held_keys a.keys };

    ghost invariant = { λ a. IsDistinct same_key (held_keys a.keys) };
}

impl Reads {
    /// No keys. It takes no memory.
    pub fn new(alloc: Global) -> Reads
        ensures { result ≡ [] }
    {
        Reads {
            keys: Keys::new(alloc),
        }
    }

    /// Whether the key was read. It takes no memory, and at most one look-up by hash.
    pub fn has(&self, key: &Key) -> bool
        ensures { IsTrue result ↔ Contains self.now key.now }
    {
        self.keys.contains(key)
    }

    /// Whether a key was read that the triple touches. It takes no memory, and a walk over a few keys or four
    /// look-ups by hash.
    pub fn is_touched_by(&self, t: &Triple) -> bool
        ensures { IsTrue result ↔ IsTouchedBy t.now self.now }
    {
        self.keys.is_touched_by(t)
    }

    /// Adds one key.
    pub fn add(&mut self, key: Key) -> Result<(), Memory>
        ensures added { OnOk result (Adds self.old self.new (key ∷ [])) }
        ensures refused { OnErr result (self.new ≡ self.old) }
    {
        self.keys.insert(key)
    }

    /// Adds all keys of another set, with one look-up by hash for each. Where it is refused, some of the
    /// first keys may have been added.
    pub fn add_all(&mut self, other: &Reads) -> Result<(), Memory>
        ensures added { OnOk result (Adds self.old self.new other.now) }
        ensures refused { OnErr result ((n : ℕ) × Adds self.old self.new (take n other.now)) }
    {
        for key in other.keys() {
            self.add(*key)?;
        }
        Ok(())
    }

    /// How many keys there are. They are distinct.
    pub fn len(&self) -> usize
        ensures count { result ≡ length self.now }
        ensures distinct { IsDistinct same_key self.now }
    {
        self.keys().len()
    }

    /// The keys, in the order in which they were first added. They are distinct.
    pub fn keys(&self) -> &[Key]
        ensures keys { result.now ≡ self.now }
        ensures distinct { IsDistinct same_key self.now }
    {
        self.keys.as_slice()
    }

    /// The key at a place, in the order in which the keys were first added.
    pub fn key_at(&self, at: usize) -> &Key
        requires { at < length self.now }
        ensures { slice_get self.now at ≡ Some result.now }
    {
        &self.keys()[at]
    }

    /// Gives back the memory that is not needed, where there are up to 64 keys: then they take 12 bytes each.
    /// It takes linear time.
    pub fn pack(&mut self, alloc: Global) -> Result<(), Memory>
        ensures { self.new ≡ self.old }
    {
        self.keys.pack(alloc)
    }

    /// Takes all keys out, and keeps the memory.
    pub fn clear(&mut self)
        ensures { self.new ≡ [] }
    {
        self.keys.clear();
    }
}
