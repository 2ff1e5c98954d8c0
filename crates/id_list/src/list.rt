//! Lists of numbers that copies share.
ghost use Rattle.std.specs.Prelude.{◌≡◌, ◌==◌, ℕ, IfOk};
ghost use Rattle.std.specs.List.{list_any};
ghost use Rattle.std.specs.Option.{ForSome};

use crate::listed::Listed;
use indexmap::IndexSet;
use shx_term::{Id, Memory};
use std::alloc::Global;
use std::fmt::{Debug, Error, Formatter, Write};
use std::marker::Model;
use std::rc::Rc;

// Up to so many numbers are searched as they stand; more are found by hash.
const FEW: usize = 16;

/// Numbers in order. Its copies share them, so that a list that many hold stands in memory once. Contracts
/// see a list.
#[derive(Drop)]
pub struct IdList {
    shared: Rc<Listed>,
}

impl Model for IdList {
    ghost use Rattle.std.specs.Prelude.{List, ℕ};

    ghost Value = { List ℕ };

    ghost view = { λ a. a.shared.value.ids.items };
}

impl IdList {
    /// These numbers. It takes time linear in them, but for a hash of each where they are many.
    pub fn new(alloc: Global, ids: Vec<Id>) -> Result<IdList, Memory>
        ensures { IfOk result (λ list. list ≡ ids.items) }
    {
        let set = set_of(alloc, &ids)?;
        let shared = Rc::new(alloc, Listed { ids, set })?;
        Ok(IdList { shared })
    }

    /// The same numbers, shared. It takes constant time.
    pub fn copy(&self) -> Result<IdList, Memory>
        ensures { IfOk result (λ copy. copy ≡ self.now) }
    {
        let shared = self.shared.clone()?;
        Ok(IdList { shared })
    }

    /// The numbers, in order. It takes no memory.
    pub fn as_slice(&self) -> &[Id]
        ensures { result.now ≡ self.now }
    {
        &self.shared.ids
    }

    /// Whether a number is among them. It takes no memory, and a walk over a few numbers or one look-up by
    /// hash.
    pub fn has(&self, id: Id) -> bool
        ensures { result ≡ list_any (λ other. other == id) self.now }
    {
        let listed: &Listed = &self.shared;
        match &listed.set {
            None => listed.ids.contains(&id),
            Some(set) => set.contains(&id),
        }
    }
}

impl Debug for IdList {
    fn fmt<W: Write>(&self, f: &mut Formatter<W>) -> Result<(), Error> {
        self.as_slice().fmt(f)
    }
}

// The numbers by hash, unless they are few.
fn set_of(alloc: Global, ids: &[Id]) -> Result<Option<IndexSet<Id>>, Memory>
    ensures { IfOk result (λ set. ForSome set (λ set. (id : ℕ)
        → list_any (λ other. other == id) set.keys ≡ list_any (λ other. other == id) ids.now)) }
{
    if ids.len() <= FEW {
        return Ok(None);
    }
    let mut set = IndexSet::new(alloc);
    for id in ids {
        set.insert(*id)?;
    }
    Ok(Some(set))
}
