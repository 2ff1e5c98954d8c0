//! `Engine::adopt`: another plan takes the place of the one at hand, and what is kept of alike shapes stays.
ghost use Rattle.std.specs.Prelude.{◌≡◌, ◌+◌, length, IfOk, OnErr};
ghost use Rattle.shape_eval.specs.Planned.{plan_of};
ghost use Rattle.plan_swap.specs.Alike.{AreAlikes};
ghost use Rattle.plan_swap.specs.Swap.{IsSwap, plan_after, plan_before};
ghost use Rattle.edit_engine.specs.MayBeAsked.{MayBeAsked};
ghost use Rattle.edit_engine.specs.Swapped.{Adopts, SwapsFresh, swapped_pairs};
ghost use Rattle.edit_engine.specs.inner.Kept.{IsKeptOf};
ghost use Rattle.read_records.specs.Recall.{kept_of};

use crate::Engine;
use crate::kept::Kept;
use crate::renewing::targets_of;
use crate::staging::terms_are_distinct;
use crate::swapping::answers_after;
use graph_view::{GraphEdit, GraphView};
use plan_swap::{Alikes, Swap};
use read_records::Recall;
use shape_eval::Plan;
use shx_term::{Memory, Steps};
use std::alloc::Global;
use std::sync::ledger::Ledger;

/// What is kept under a new plan, and how many pairs were evaluated.
#[derive(Drop)]
struct Adopted {
    kept: Kept,
    evaluated: u64,
}

impl<V: GraphEdit> Engine<V> {
    /// Takes another plan, and the graph stays. It is told which of the new shapes are alike with old ones:
    /// what is kept of their pairs stays, under new numbers. Each other pair is evaluated once, which counts
    /// a step; how many those are it gives. So is each nested pair that is not remembered of an alike shape,
    /// which is counted in `nested`.
    ///
    /// It costs what these pairs cost, a walk over the target nodes, and a copy of what stays, which is
    /// sorted.
    ///
    /// # Errors
    ///
    /// Memory was refused: then all is as before, but evaluations may have been counted.
    pub fn adopt<K: Ledger, L: Ledger>(
        &mut self,
        alloc: Global,
        plan: Plan,
        alikes: &Alikes,
        nested: &mut Steps<K>,
        steps: &mut Steps<L>,
    ) -> Result<u64, Memory>
        requires asked { MayBeAsked (plan_of plan) self.old.graph }
        requires alikes { AreAlikes self.old.plan.shapes (plan_of plan).shapes alikes.now }
        ensures adopted { IfOk result (λ evaluated. Adopts self.old (plan_of plan) alikes.now evaluated
            self.new nested.old nested.new) }
        ensures steps { IfOk result (λ evaluated. steps.new ≡ steps.old + evaluated) }
        ensures refused { OnErr result (self.new ≡ self.old) }
    {
        let swap = Swap {
            old: &self.plan,
            new: &plan,
            alikes,
        };
        let adopted = adopted_by(alloc, &self.view, &swap, &self.kept, nested, steps)?;
        let Adopted { kept, evaluated } = adopted;
        self.kept = kept;
        self.plan = plan;
        self.settled = self.view.pool().len();
        Ok(evaluated)
    }
}

// What is kept under the new plan, beside what is under the old one.
fn adopted_by<V: GraphView, K: Ledger, L: Ledger>(
    alloc: Global,
    view: &V,
    swap: &Swap<'_>,
    kept: &Kept,
    nested: &mut Steps<K>,
    steps: &mut Steps<L>,
) -> Result<Adopted, Memory>
    requires swap { IsSwap swap.now }
    requires before { MayBeAsked (plan_before swap.now) (V.graph view.now) }
    requires after { MayBeAsked (plan_after swap.now) (V.graph view.now) }
    requires kept { IsKeptOf (plan_before swap.now).shapes (plan_before swap.now).targeted
        (V.graph view.now) kept.now }
    ensures kept { IfOk result (λ adopted. IsKeptOf (plan_after swap.now).shapes
        (plan_after swap.now).targeted (V.graph view.now) adopted.kept) }
    ensures evaluated { IfOk result (λ adopted. adopted.evaluated ≡ length (swapped_pairs
        (plan_before swap.now) (plan_after swap.now) swap.now.alikes.now (V.graph view.now))) }
    ensures steps { IfOk result (λ adopted. steps.new ≡ steps.old + adopted.evaluated) }
    ensures nested { IfOk result (λ adopted. SwapsFresh (plan_after swap.now) swap.now.alikes.now
        (V.graph view.now) (kept_of kept.now.recall) (kept_of adopted.kept.recall) nested.old nested.new) }
{
    terms_are_distinct(view.pool());
    let mut answers = answers_after(alloc, swap, &kept.recall)?;
    let mut renewal = targets_of(alloc, view, swap.new)?;
    let evaluated = renewal.evaluate_swapped(alloc, view, swap, kept, &mut answers, nested, steps)?;
    let recall = Recall::of_all(alloc, answers.into_all(alloc)?)?;
    let kept = Kept::adopt(alloc, view.pool(), swap.new.len(), renewal, recall)?;
    Ok(Adopted { kept, evaluated })
}
