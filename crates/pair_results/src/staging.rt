ghost use Rattle.std.specs.Prelude.{◌≡◌, ◌<◌, ◌≤◌, ◌+◌, ◌^◌, [], length, IfOk, OnOk, OnErr};
ghost use Rattle.std.specs.Bool.{OnTrue, OnFalse};
ghost use Rattle.pair_results.specs.PairResults.{all_rows, Commits, SameChanges, SameRows, Stages};
ghost use Rattle.pair_results.specs.inner.Invariant.{staged_rows, AddsAt};

use crate::PairResults;
use crate::nodes::{make_place, put, vacate};
use crate::pair_results::Place;
use comp_core::{ResultRow, RowList, ShapeNo};
use shx_term::{Memory, Term};
use std::alloc::{AllocError, Global};
use std::collections::BTreeMap;

impl PairResults {
    /// Stages the results of a shape at a node, in the place of what is staged for them. It takes all the
    /// memory that `commit` needs, and logarithmic time. Where it is refused, nothing changes.
    pub fn stage(
        &mut self,
        alloc: Global,
        shape: ShapeNo,
        node: &Term,
        rows: Vec<ResultRow>,
    ) -> Result<(), Memory>
        requires { shape < length self.old.shapes }
        ensures shapes { length self.new.shapes ≡ length self.old.shapes }
        ensures kept { SameRows self.old self.new }
        ensures staged { OnOk result (Stages self.old self.new shape node.now rows.items) }
        ensures refused { OnErr result (SameChanges self.old self.new) }
    {
        // Most nodes have no results, before and after.
        if rows.is_empty() && !self.shapes[shape as usize].contains_key(node) {
            return Ok(());
        }
        let rows = RowList::new(rows);
        self.coming = self.coming_with(rows.len())?;
        let is_new = make_place(alloc, &mut self.shapes[shape as usize], node)?;
        if let Err(refused) = insert(alloc, &mut self.staged, shape, node, rows) {
            if is_new {
                vacate(&mut self.shapes[shape as usize], node);
            }
            return Err(refused);
        }
        Ok(())
    }

    /// At least as many as are staged, where so many more are. With those that are kept they can be counted.
    fn coming_with(&self, more: u64) -> Result<u64, Memory>
        ensures enough { IfOk result (λ coming. length (staged_rows self.now) + more ≤ coming) }
        ensures fits { IfOk result (λ coming. length (all_rows self.now) + coming < 2 ^ 64) }
    {
        match self.coming.checked_add(more) {
            Some(coming) if self.count.checked_add(coming).is_some() => Ok(coming),
            _ => Err(AllocError),
        }
    }

    /// Makes what is staged, and then nothing is staged. It takes no memory.
    pub fn commit(&mut self)
        ensures shapes { length self.new.shapes ≡ length self.old.shapes }
        ensures kept { Commits self.old self.new }
        ensures staged { self.new.staged ≡ [] }
    {
        while self.commit_first() {}
        self.coming = 0;
    }

    /// Makes the first of what is staged, where there is something.
    fn commit_first(&mut self) -> bool
        ensures shapes { length self.new.shapes ≡ length self.old.shapes }
        ensures changes { SameChanges self.old self.new }
        ensures more { OnTrue result (length self.old.staged ≡ length self.new.staged + 1) }
        ensures last { OnFalse result (self.new.staged ≡ []) }
    {
        let Some((place, rows)) = self.staged.pop_first() else {
            return false;
        };
        let new = rows.len();
        let nodes = &mut self.shapes[place.shape as usize];
        let gone = put(nodes, &place.node, rows);
        vacate(nodes, &place.node);
        self.count = self.count - gone + new;
        self.coming -= new;
        true
    }

    /// Forgets what is staged. It takes no memory.
    pub fn drop_staged(&mut self)
        ensures shapes { length self.new.shapes ≡ length self.old.shapes }
        ensures kept { SameRows self.old self.new }
        ensures staged { self.new.staged ≡ [] }
    {
        while let Some((place, _)) = self.staged.pop_first() {
            vacate(&mut self.shapes[place.shape as usize], &place.node);
        }
        self.coming = 0;
    }
}

fn insert(
    alloc: Global,
    staged: &mut BTreeMap<Place, RowList>,
    shape: ShapeNo,
    node: &Term,
    rows: RowList,
) -> Result<(), Memory>
    ensures staged { OnOk result (AddsAt staged.old.entries staged.new.entries shape node.now rows) }
    ensures refused { OnErr result (staged.new.entries ≡ staged.old.entries) }
{
    let node = node.copy(alloc)?;
    staged.insert(Place { shape, node }, rows)?;
    Ok(())
}
