//! What is taken over from under an old plan, and what is evaluated under the new one.
ghost use Rattle.std.specs.Prelude.{◌≡◌, ◌+◌, [], not, filter, length, All, IfOk, OnOk};
ghost use Rattle.shape_eval.specs.Answered.{answered};
ghost use Rattle.plan_swap.specs.Swap.{IsSwap, plan_after, plan_before};
ghost use Rattle.read_records.specs.Recall.{kept_of};
ghost use Rattle.edit_engine.specs.MayBeAsked.{MayBeAsked};
ghost use Rattle.edit_engine.specs.Pairs.{IsKnownPair};
ghost use Rattle.edit_engine.specs.Swapped.{was_pair};
ghost use Rattle.edit_engine.specs.inner.Kept.{IsKeptOf};
ghost use Rattle.edit_engine.specs.inner.Parts.{Evaluates, SameTargets};
ghost use Rattle.edit_engine.specs.inner.Recall.{BringsNested};
ghost use Rattle.edit_engine.specs.inner.Swapping.{AreCopied, IsTakenOver};

use crate::kept::Kept;
use crate::parts::evaluate;
use crate::renewal::{Evaluated, Renewal};
use comp_core::{Memo, Pair};
use graph_view::{GraphView, Reads};
use plan_swap::{Swap, alike_shapes_find_alike, alike_shapes_nest_alike};
use read_records::{Reader, Recall};
use shape_eval::{Answers, Known, PairAnswer};
use shx_term::{Memory, Steps};
use std::alloc::Global;
use std::sync::ledger::Ledger;

impl Renewal {
    /// What each pair that enters comes to. Where it was a pair of an alike shape, what was kept of it is
    /// taken over; else it is evaluated, which counts a step. It gives how many were.
    pub(crate) fn evaluate_swapped<V: GraphView, K: Ledger, L: Ledger>(
        &mut self,
        alloc: Global,
        view: &V,
        swap: &Swap<'_>,
        kept: &Kept,
        answers: &mut Answers<Reads>,
        nested: &mut Steps<K>,
        steps: &mut Steps<L>,
    ) -> Result<u64, Memory>
        requires swap { IsSwap swap.now }
        requires before { MayBeAsked (plan_before swap.now) (V.graph view.now) }
        requires after { MayBeAsked (plan_after swap.now) (V.graph view.now) }
        requires kept { IsKeptOf (plan_before swap.now).shapes (plan_before swap.now).targeted
            (V.graph view.now) kept.now }
        requires known { All (IsKnownPair (plan_after swap.now).shapes (V.graph view.now))
            self.old.entering.items }
        requires copied { AreCopied swap.now (kept_of kept.now.recall) (answered answers.old) }
        ensures evaluated { OnOk result (Evaluates (plan_after swap.now).shapes (V.graph view.now)
            self.old.evaluated.items self.new.evaluated.items self.old.entering.items) }
        ensures targets { SameTargets self.old self.new }
        ensures count { IfOk result (λ n. n ≡ length (filter (λ p. not (was_pair (plan_before swap.now)
            swap.now.alikes.now (V.graph view.now) p)) self.old.entering.items)) }
        ensures steps { IfOk result (λ n. steps.new ≡ steps.old + n) }
        ensures nested { OnOk result (BringsNested (plan_after swap.now).shapes (V.graph view.now)
            (answered answers.old) (answered answers.new) self.old.entering.items nested.old nested.new) }
    {
        alike_shapes_find_alike();
        alike_shapes_nest_alike();
        swap.old.shapes_are_numbered();
        swap.new.shapes_are_numbered();
        let mut known = Known::new(alloc);
        let mut swapped = 0;
        for pair in &self.entering {
            if let Some(answer) = answer_kept(alloc, view, swap, kept, *pair)? {
                self.evaluated.push(Evaluated {
                    pair: *pair,
                    answer,
                })?;
                continue;
            }
            swapped += 1;
            let found = evaluate(
                alloc, view, swap.new, &mut known, *pair, answers, nested, steps,
            )?;
            self.evaluated.push(found)?;
        }
        Ok(swapped)
    }
}

// What was kept of a pair, under new numbers, where it was a pair of an alike shape.
fn answer_kept<V: GraphView>(
    alloc: Global,
    view: &V,
    swap: &Swap<'_>,
    kept: &Kept,
    pair: Pair,
) -> Result<Option<PairAnswer<Reads>>, Memory>
    requires swap { IsSwap swap.now }
    requires before { MayBeAsked (plan_before swap.now) (V.graph view.now) }
    requires kept { IsKeptOf (plan_before swap.now).shapes (plan_before swap.now).targeted
        (V.graph view.now) kept.now }
    requires pair { IsKnownPair (plan_after swap.now).shapes (V.graph view.now) pair }
    ensures { IfOk result (IsTakenOver swap.now (plan_after swap.now).shapes (V.graph view.now) pair) }
{
    alike_shapes_find_alike();
    swap.old.shapes_are_numbered();
    swap.new.shapes_are_numbered();
    let Some(before) = swap.pair_before(pair) else {
        return Ok(None);
    };
    let Some(reads) = kept.records.reads_of(&Reader::OfPair(before)) else {
        return Ok(None);
    };
    let rows = kept
        .results
        .rows_of(before.shape, view.pool().term(before.node));
    Ok(Some(swap.answer(alloc, rows, reads)?))
}

/// The answers of nested pairs that are remembered of alike shapes, under their new numbers.
pub(crate) fn answers_after(
    alloc: Global,
    swap: &Swap<'_>,
    recall: &Recall,
) -> Result<Answers<Reads>, Memory>
    requires swap { IsSwap swap.now }
    requires settled { recall.now.staged ≡ [] }
    ensures { IfOk result (λ answers. AreCopied swap.now (kept_of recall.now) (answered answers)) }
{
    swap.old.shapes_are_numbered();
    swap.new.shapes_are_numbered();
    let mut answers = Answers::new(alloc);
    for pair in &recall.pairs(alloc)? {
        let Some(after) = swap.pair_after(*pair) else {
            continue;
        };
        let Some(found) = recall.find(pair) else {
            continue;
        };
        answers.remember(after, swap.answer(alloc, found.rows, found.reads)?)?;
    }
    Ok(answers)
}
