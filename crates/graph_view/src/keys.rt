//! A set of keys: a few lie side by side and are searched, and more are found by hash.
ghost use Rattle.std.specs.Prelude.{◌≡◌, ◌↔◌, [], ◌∷◌, Contains, IsTrue, IfOk, OnOk, OnErr};
ghost use Rattle.std.specs.List.{IsDistinct};
ghost use Rattle.shx_term.specs.Members.{Adds};
ghost use Rattle.graph_view.specs.declared.key.Key.{Key};
ghost use Rattle.graph_view.specs.Key.{same_key};
ghost use Rattle.graph_view.specs.Reads.{IsTouchedBy};
ghost use Rattle.graph_view.specs.inner.HeldKeys.{held_keys};

use crate::{Key, keys_of, touches};
use indexmap::IndexSet;
use shx_term::{Memory, Triple};
use std::alloc::Global;

/// How many keys lie side by side at most while a set grows.
const FEW: usize = 16;

/// How many may be packed side by side: what is kept is asked seldom, and a hash takes thrice the memory.
const PACKED: usize = 64;

/// Most sets have a few keys: these take one allocation, of 12 bytes a key.
pub(crate) enum Keys {
    Few(Vec<Key>),
    Many(Box<IndexSet<Key>>),
}

// A derived drop is no call: each place where a set ends would split into one path for each form.
impl Drop for Keys {
    fn drop(self) {
        match self {
            Keys::Few(_keys) => {}
            Keys::Many(_keys) => {}
        }
    }
}

impl Keys {
    pub(crate) fn new(alloc: Global) -> Keys
        ensures { held_keys result ≡ [] }
    {
        Keys::Few(Vec::new(alloc))
    }

    pub(crate) fn as_slice(&self) -> &[Key]
        ensures { result.now ≡ held_keys self.now }
    {
        match self {
            Keys::Few(keys) => keys.as_slice(),
            Keys::Many(keys) => keys.as_slice(),
        }
    }

    pub(crate) fn contains(&self, key: &Key) -> bool
        ensures { IsTrue result ↔ Contains (held_keys self.now) key.now }
    {
        match self {
            Keys::Few(keys) => is_listed(keys, key),
            Keys::Many(keys) => is_hashed(keys, key),
        }
    }

    pub(crate) fn is_touched_by(&self, t: &Triple) -> bool
        ensures { IsTrue result ↔ IsTouchedBy t.now (held_keys self.now) }
    {
        match self {
            Keys::Few(keys) => is_any_touched(keys, t),
            Keys::Many(keys) => is_touched_at(keys, t),
        }
    }

    pub(crate) fn insert(&mut self, key: Key) -> Result<(), Memory>
        requires distinct { IsDistinct same_key (held_keys self.old) }
        ensures added { OnOk result (Adds (held_keys self.old) (held_keys self.new) (key ∷ [])) }
        ensures refused { OnErr result (held_keys self.new ≡ held_keys self.old) }
        ensures distinct { IsDistinct same_key (held_keys self.new) }
    {
        match self {
            Keys::Few(keys) => {
                if is_listed(keys, &key) {
                    return Ok(());
                }
                if keys.len() < FEW {
                    keys.push(key)?;
                    return Ok(());
                }
                let all = hashed_with(*keys.allocator(), keys, key)?;
                *self = Keys::Many(all);
                Ok(())
            }
            Keys::Many(keys) => {
                keys.insert(key)?;
                Ok(())
            }
        }
    }

    /// Lays the keys side by side in no more memory than they need, where they are not too many.
    pub(crate) fn pack(&mut self, alloc: Global) -> Result<(), Memory>
        ensures { held_keys self.new ≡ held_keys self.old }
    {
        if self.as_slice().len() <= PACKED {
            *self = Keys::Few(Vec::from_slice(alloc, self.as_slice())?);
        }
        Ok(())
    }

    /// Takes all keys out, and keeps the memory.
    pub(crate) fn clear(&mut self)
        ensures { held_keys self.new ≡ [] }
    {
        match self {
            Keys::Few(keys) => keys.clear(),
            Keys::Many(keys) => keys.clear(),
        }
    }
}

fn is_listed(keys: &[Key], key: &Key) -> bool
    ensures { IsTrue result ↔ Contains keys.now key.now }
{
    keys.contains(key)
}

fn is_hashed(keys: &IndexSet<Key>, key: &Key) -> bool
    ensures { IsTrue result ↔ Contains keys.now.keys key.now }
{
    keys.contains(key)
}

fn is_any_touched(keys: &[Key], t: &Triple) -> bool
    ensures { IsTrue result ↔ IsTouchedBy t.now keys.now }
{
    keys.iter().any(|key| touches(t, key))
}

fn is_touched_at(keys: &IndexSet<Key>, t: &Triple) -> bool
    ensures { IsTrue result ↔ IsTouchedBy t.now keys.now.keys }
{
    is_any_hashed(keys, &keys_of(t))
}

fn is_any_hashed(keys: &IndexSet<Key>, wanted: &[Key]) -> bool
    ensures { IsTrue result ↔ ((key : Key) × (Contains wanted.now key × Contains keys.now.keys key)) }
{
    wanted.iter().any(|key| is_hashed(keys, key))
}

/// The keys, and one more, as a set that is found by hash.
fn hashed_with(alloc: Global, keys: &[Key], key: Key) -> Result<Box<IndexSet<Key>>, Memory>
    ensures added { IfOk result (λ all. Adds keys.now all.value.keys (key ∷ [])) }
    ensures distinct { IfOk result (λ all. IsDistinct same_key all.value.keys) }
{
    let mut all = hashed(alloc, keys)?;
    all.insert(key)?;
    Ok(Box::new(alloc, all)?)
}

fn hashed(alloc: Global, keys: &[Key]) -> Result<IndexSet<Key>, Memory>
    ensures { IfOk result (λ all. Adds [] all.keys keys.now) }
{
    let mut all = IndexSet::with_capacity(alloc, 2 * FEW)?;
    for key in keys {
        all.insert(*key)?;
    }
    Ok(all)
}
