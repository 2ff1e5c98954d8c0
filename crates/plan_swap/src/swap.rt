//! Pairs, results and what was read for them, under the numbers of another plan.
ghost use Rattle.std.specs.Prelude.{◌≡◌, ◌<◌, nat_eq, Some, length, map, position, IfOk};
ghost use Rattle.std.specs.Option.{option_eq};
ghost use Rattle.shx_term.specs.Members.{SameMembers};
ghost use Rattle.comp_core.specs.Rows.{detail_of};
ghost use Rattle.plan_swap.specs.Renumbered.{detail_renumbered, key_renumbered, row_renumbered};
ghost use Rattle.plan_swap.specs.Renumbered.{rows_renumbered};
ghost use Rattle.plan_swap.specs.Swap.{IsSwap, number_after, pair_after, pair_before};

use crate::Alikes;
use comp_core::{DetailRow, Details, Pair, PairAnswer, ResultRow, ShapeNo};
use graph_view::{Key, Reads};
use shape_eval::Plan;
use shx_term::Memory;
use std::alloc::Global;

/// One plan in the place of another, and which of their shapes are alike. The numbers of terms in both are of
/// one pool.
#[derive(Drop)]
pub struct Swap<'s> {
    pub old: &'s Plan,
    pub new: &'s Plan,
    pub alikes: &'s Alikes,
}

impl Swap<'_> {
    /// The pair of the old plan that a new one was, where an old shape is alike. It takes no memory.
    pub fn pair_before(&self, pair: Pair) -> Option<Pair>
        requires { pair.shape < length self.now.alikes.now }
        ensures { result ≡ pair_before self.now.alikes.now pair }
    {
        let shape = self.alikes.old_number(pair.shape)?;
        Some(Pair {
            shape,
            node: pair.node,
        })
    }

    /// The pair of the new plan that an old one is, where a new shape is alike. It takes one look-up by hash,
    /// and no memory.
    pub fn pair_after(&self, pair: Pair) -> Option<Pair>
        requires { IsSwap self.now }
        ensures { result ≡ pair_after self.now.alikes.now pair }
    {
        let shape = self.alike_after(pair.shape)?;
        Some(Pair {
            shape,
            node: pair.node,
        })
    }

    /// What was found of an old pair of an alike shape, as it is found of the new one.
    pub fn answer(
        &self,
        alloc: Global,
        rows: &[ResultRow],
        reads: &Reads,
    ) -> Result<PairAnswer<Reads>, Memory>
        ensures rows { IfOk result (λ found.
            found.rows.items ≡ rows_renumbered (number_after self.now) rows.now) }
        ensures reads { IfOk result (λ found.
            SameMembers found.reads (map (key_renumbered (number_after self.now)) reads.now)) }
    {
        let rows = self.rows(alloc, rows)?;
        let reads = self.reads(alloc, reads)?;
        Ok(PairAnswer { rows, reads })
    }

    fn reads(&self, alloc: Global, reads: &Reads) -> Result<Reads, Memory>
        ensures { IfOk result (λ found.
            SameMembers found (map (key_renumbered (number_after self.now)) reads.now)) }
    {
        let mut found = Reads::new(alloc);
        for key in reads.keys() {
            found.add(self.key(*key))?;
        }
        found.pack(alloc)?;
        Ok(found)
    }

    fn key(&self, key: Key) -> Key
        ensures { result ≡ key_renumbered (number_after self.now) key }
    {
        match key {
            Key::Answer(shape, node) => Key::Answer(self.new_number(shape), node),
            _ => key,
        }
    }

    // The new shape that is alike with an old one.
    fn alike_after(&self, m: ShapeNo) -> Option<ShapeNo>
        requires { IsSwap self.now }
        ensures { result ≡ position (option_eq nat_eq (Some m)) self.now.alikes.now }
    {
        self.old.shapes_are_numbered();
        self.new.shapes_are_numbered();
        if m >= self.old.len() {
            return None;
        }
        let n = self.new.number(self.old.shape(m).node)?;
        (self.alikes.old_number(n) == Some(m)).then_some(n)
    }

    // The number that an old shape has in the new plan, by its node.
    fn new_number(&self, m: ShapeNo) -> ShapeNo
        ensures { result ≡ number_after self.now m }
    {
        if m >= self.old.len() {
            return 0;
        }
        self.new.number(self.old.shape(m).node).unwrap_or(0)
    }

    fn rows(&self, alloc: Global, rows: &[ResultRow]) -> Result<Vec<ResultRow>, Memory>
        ensures { IfOk result (λ found. found.items ≡ rows_renumbered (number_after self.now) rows.now) }
    {
        let mut found = Vec::new(alloc);
        for row in rows {
            found.push(self.row(alloc, row)?)?;
        }
        Ok(found)
    }

    fn row(&self, alloc: Global, row: &ResultRow) -> Result<ResultRow, Memory>
        ensures { IfOk result (λ found. found ≡ row_renumbered (number_after self.now) row.now) }
    {
        Ok(ResultRow {
            focus: row.focus,
            value: row.value,
            predicate: row.predicate,
            shape: self.new_number(row.shape),
            kind: row.kind,
            details: self.details(alloc, row.details.as_slice())?,
        })
    }

    fn details(&self, alloc: Global, details: &[DetailRow]) -> Result<Details, Memory>
        ensures { IfOk result (λ found. found ≡ map (detail_renumbered (number_after self.now)) details.now) }
    {
        let mut rows = Vec::new(alloc);
        for row in details {
            rows.push(self.detail(alloc, row)?)?;
        }
        Details::of(alloc, &rows)
    }

    // A result on which another one rests, as a result of its own.
    fn detail(&self, alloc: Global, row: &DetailRow) -> Result<ResultRow, Memory>
        ensures { IfOk result (λ found. detail_of found ≡ detail_renumbered (number_after self.now) row.now) }
    {
        ResultRow::plain(
            alloc,
            row.focus,
            row.value,
            row.predicate,
            self.new_number(row.shape),
            row.kind,
        )
    }
}
