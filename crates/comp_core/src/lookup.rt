//! Numbers that are looked up.
ghost use Rattle.std.specs.Prelude.{◌≡◌, ℕ, IfOk};
ghost use Rattle.comp_core.specs.TermTests.{is_among};

use crate::held::Held;
use indexmap::IndexSet;
use shx_term::{Id, Memory};
use std::alloc::Global;
use std::marker::Model;

// Up to so many numbers are searched as they stand; more are found by hash.
const FEW: usize = 16;

/// Numbers that are looked up again and again. Contracts see them as a list, and speak of its members alone.
#[derive(Drop)]
pub struct Lookup<'a> {
    held: Held<'a>,
}

impl<'a> Model for Lookup<'a> {
    ghost use Rattle.std.specs.Prelude.{List, ℕ};
    ghost use Rattle.comp_core.specs.inner.HeldIds.{held_ids};

    ghost Value = { List ℕ };

    ghost view = { λ a. held_ids a.held };
}

impl<'a> Lookup<'a> {
    /// These numbers. A few are not copied and take no memory.
    pub fn new(alloc: Global, ids: &'a [Id]) -> Result<Lookup<'a>, Memory>
        ensures { IfOk result (λ lookup. (id : ℕ) → is_among id lookup ≡ is_among id ids.now) }
    {
        if ids.len() <= FEW {
            return Ok(Lookup {
                held: Held::Few(ids),
            });
        }
        Ok(Lookup {
            held: Held::Many(set_of(alloc, ids)?),
        })
    }

    /// Whether a number is among them. It takes no memory, and a walk over a few numbers or one look-up by
    /// hash.
    pub fn has(&self, id: Id) -> bool
        ensures { result ≡ is_among id self.now }
    {
        match &self.held {
            Held::Few(ids) => ids.contains(&id),
            Held::Many(ids) => ids.contains(&id),
        }
    }
}

// The numbers, each once.
fn set_of(alloc: Global, ids: &[Id]) -> Result<IndexSet<Id>, Memory>
    ensures { IfOk result (λ set. (id : ℕ) → is_among id set.keys ≡ is_among id ids.now) }
{
    let mut set = IndexSet::new(alloc);
    for id in ids {
        set.insert(*id)?;
    }
    Ok(set)
}
