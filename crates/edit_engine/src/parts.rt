//! How the parts of a renewal are gathered.
ghost use Rattle.std.specs.Prelude.{◌≡◌, ◌+◌, ◌<◌, [], ◌∷◌, ◌++◌, length, map, nat_eq, All, IfOk, OnOk};
ghost use Rattle.std.specs.List.{IsDistinct};
ghost use Rattle.std.specs.Option.{option_to_list};
ghost use Rattle.shx_term.specs.Members.{SameMembers};
ghost use Rattle.graph_view.specs.Patched.{IsPatch, patched};
ghost use Rattle.graph_view.specs.Valid.{IsValidView};
ghost use Rattle.comp_core.specs.Memo.{RemembersSame};
ghost use Rattle.shape_eval.specs.Known.{IsKnownOf};
ghost use Rattle.shape_eval.specs.Plan.{IsKnownPlan};
ghost use Rattle.shape_eval.specs.Planned.{plan_of};
ghost use Rattle.shape_eval.specs.Recalled.{IsRecallOf};
ghost use Rattle.shape_eval.specs.Report.{at_shape};
ghost use Rattle.edit_engine.specs.Pairs.{IsKnownPair};
ghost use Rattle.edit_engine.specs.Renewal.{IsRight};
ghost use Rattle.edit_engine.specs.inner.Parts.{Evaluates, IsEmptyRenewal, OpensTarget, RenewsTargets};
ghost use Rattle.edit_engine.specs.inner.Parts.{AlsoLeave, OnlyEnters, OnlyLeaves, OnlyRenews, RenewsTarget};
ghost use Rattle.edit_engine.specs.inner.Parts.{SameTargets, pairs_staying, reads_renewed, targets_among};
ghost use Rattle.edit_engine.specs.inner.Recall.{BringsNested};

use crate::renewal::{Evaluated, Renewal, TargetReads};
use crate::target_change::target_change;
use comp_core::{Memo, Pair, ShapeNo};
use graph_view::{GraphView, Reads};
use indexmap::IndexSet;
use read_records::Reader;
use shape_eval::{Known, Plan, eval_pair, eval_target};
use shx_term::{Id, Memory, Steps, Triple};
use std::alloc::Global;
use std::sync::ledger::Ledger;

impl Renewal {
    /// Nothing is to be kept.
    pub(crate) fn new(alloc: Global) -> Renewal
        ensures { IsEmptyRenewal result }
    {
        Renewal {
            targets: Vec::new(alloc),
            leaving: IndexSet::new(alloc),
            entering: Vec::new(alloc),
            evaluated: Vec::new(alloc),
        }
    }

    /// One target more, all of whose nodes are new.
    pub(crate) fn open_target<V: GraphView>(
        &mut self,
        alloc: Global,
        view: &V,
        plan: &Plan,
        shape: ShapeNo,
    ) -> Result<(), Memory>
        requires plan { IsKnownPlan (V.graph view.now).terms (plan_of plan.now).shapes }
        requires shape { shape < length (plan_of plan.now).shapes }
        ensures { OnOk result
            (OpensTarget (plan_of plan.now).shapes (V.graph view.now) shape self.old self.new) }
    {
        let mut reads = Reads::new(alloc);
        let nodes = eval_target(alloc, view, plan, shape, &mut reads)?;
        reads.pack(alloc)?;
        self.enter(shape, &nodes)?;
        self.targets.push(TargetReads { shape, reads })?;
        Ok(())
    }

    /// The target of a shape, with the nodes that enter it and those that leave it.
    pub(crate) fn renew_target<V: GraphView, W: GraphView>(
        &mut self,
        alloc: Global,
        before: &V,
        after: &W,
        plan: &Plan,
        shape: ShapeNo,
        added: &[Triple],
        removed: &[Triple],
    ) -> Result<(), Memory>
        requires before { IsKnownPlan (V.graph before.now).terms (plan_of plan.now).shapes }
        requires after { IsKnownPlan (W.graph after.now).terms (plan_of plan.now).shapes }
        requires shape { shape < length (plan_of plan.now).shapes }
        requires patch { IsPatch (V.graph before.now) added.now removed.now }
        requires patched { W.graph after.now ≡ patched (V.graph before.now) added.now removed.now }
        ensures target { OnOk result (RenewsTarget (plan_of plan.now).shapes (V.graph before.now)
            (W.graph after.now) shape self.old self.new) }
        ensures evaluated { self.new.evaluated.items ≡ self.old.evaluated.items }
    {
        let change = target_change(alloc, before, after, plan, shape, added, removed)?;
        self.enter(shape, &change.entering)?;
        self.leave(shape, &change.leaving)?;
        self.renew_reads(shape, change.reads)
    }

    /// These nodes of a shape enter.
    fn enter(&mut self, shape: ShapeNo, nodes: &[Id]) -> Result<(), Memory>
        ensures entering { OnOk result
            (self.new.entering.items ≡ self.old.entering.items ++ map (at_shape shape) nodes.now) }
        ensures others { OnlyEnters self.old self.new }
    {
        for node in nodes {
            self.entering.push(Pair { shape, node: *node })?;
        }
        Ok(())
    }

    /// These nodes of a shape leave.
    fn leave(&mut self, shape: ShapeNo, nodes: &[Id]) -> Result<(), Memory>
        ensures leaving { OnOk result
            (AlsoLeave (map (at_shape shape) nodes.now) self.old.leaving.keys self.new.leaving.keys) }
        ensures others { OnlyLeaves self.old self.new }
    {
        for node in nodes {
            self.leaving.insert(Pair { shape, node: *node })?;
        }
        Ok(())
    }

    /// What is read for a target now, where that may be something else than before.
    fn renew_reads(&mut self, shape: ShapeNo, reads: Option<Reads>) -> Result<(), Memory>
        ensures targets { OnOk result (self.new.targets.items
            ≡ self.old.targets.items ++ option_to_list (reads_renewed shape reads)) }
        ensures others { OnlyRenews self.old self.new }
    {
        if let Some(reads) = reads {
            self.targets.push(TargetReads { shape, reads })?;
        }
        Ok(())
    }

    /// The targets among these readers.
    pub(crate) fn renew_targets<V: GraphView, W: GraphView>(
        &mut self,
        alloc: Global,
        before: &V,
        after: &W,
        plan: &Plan,
        touched: &[Reader],
        added: &[Triple],
        removed: &[Triple],
    ) -> Result<(), Memory>
        requires empty { IsEmptyRenewal self.old }
        requires before { IsKnownPlan (V.graph before.now).terms (plan_of plan.now).shapes }
        requires after { IsKnownPlan (W.graph after.now).terms (plan_of plan.now).shapes }
        requires patch { IsPatch (V.graph before.now) added.now removed.now }
        requires patched { W.graph after.now ≡ patched (V.graph before.now) added.now removed.now }
        requires within { All (λ n. n < length (plan_of plan.now).shapes) (targets_among touched.now) }
        requires once { IsDistinct nat_eq (targets_among touched.now) }
        ensures targets { OnOk result (RenewsTargets (plan_of plan.now).shapes (V.graph before.now)
            (W.graph after.now) (targets_among touched.now) self.new) }
        ensures evaluated { self.new.evaluated.items ≡ [] }
    {
        for reader in touched {
            if let Reader::OfTarget(shape) = reader {
                self.renew_target(alloc, before, after, plan, *shape, added, removed)?;
            }
        }
        Ok(())
    }

    /// Evaluates the pairs among these readers that still are pairs. Each evaluation counts a step.
    pub(crate) fn evaluate_touched<V: GraphView, M: Memo<Noted = Reads>, K: Ledger, L: Ledger>(
        &mut self,
        alloc: Global,
        view: &V,
        plan: &Plan,
        touched: &[Reader],
        memo: &mut M,
        nested: &mut Steps<K>,
        steps: &mut Steps<L>,
    ) -> Result<(), Memory>
        requires valid { IsValidView (V.graph view.now) }
        requires plan { IsKnownPlan (V.graph view.now).terms (plan_of plan.now).shapes }
        requires known { All (IsKnownPair (plan_of plan.now).shapes (V.graph view.now))
            (pairs_staying touched.now self.old.leaving.keys) }
        requires recall { IsRecallOf SameMembers (plan_of plan.now).shapes (V.graph view.now)
            (M.recalled memo.old) }
        ensures evaluated { OnOk result (Evaluates (plan_of plan.now).shapes (V.graph view.now)
            self.old.evaluated.items self.new.evaluated.items
            (pairs_staying touched.now self.old.leaving.keys)) }
        ensures targets { SameTargets self.old self.new }
        ensures steps { OnOk result (steps.new
            ≡ steps.old + length (pairs_staying touched.now self.old.leaving.keys)) }
        ensures nested { OnOk result (BringsNested (plan_of plan.now).shapes (V.graph view.now)
            (M.recalled memo.old) (M.recalled memo.new)
            (pairs_staying touched.now self.old.leaving.keys) nested.old nested.new) }
        ensures kept { RemembersSame (M.kept memo.old) (M.kept memo.new) }
    {
        let mut known = Known::new(alloc);
        for reader in touched {
            if let Reader::OfPair(pair) = reader
                && !self.leaving.contains(pair)
            {
                let evaluated = evaluate(
                    alloc, view, plan, &mut known, *pair, memo, nested, steps,
                )?;
                self.evaluated.push(evaluated)?;
            }
        }
        Ok(())
    }

    /// Evaluates the pairs that were none before. Each evaluation counts a step.
    pub(crate) fn evaluate_entering<V: GraphView, M: Memo<Noted = Reads>, K: Ledger, L: Ledger>(
        &mut self,
        alloc: Global,
        view: &V,
        plan: &Plan,
        memo: &mut M,
        nested: &mut Steps<K>,
        steps: &mut Steps<L>,
    ) -> Result<(), Memory>
        requires valid { IsValidView (V.graph view.now) }
        requires plan { IsKnownPlan (V.graph view.now).terms (plan_of plan.now).shapes }
        requires known { All (IsKnownPair (plan_of plan.now).shapes (V.graph view.now))
            self.old.entering.items }
        requires recall { IsRecallOf SameMembers (plan_of plan.now).shapes (V.graph view.now)
            (M.recalled memo.old) }
        ensures evaluated { OnOk result (Evaluates (plan_of plan.now).shapes (V.graph view.now)
            self.old.evaluated.items self.new.evaluated.items self.old.entering.items) }
        ensures targets { SameTargets self.old self.new }
        ensures steps { OnOk result (steps.new ≡ steps.old + length self.old.entering.items) }
        ensures nested { OnOk result (BringsNested (plan_of plan.now).shapes (V.graph view.now)
            (M.recalled memo.old) (M.recalled memo.new) self.old.entering.items nested.old nested.new) }
        ensures kept { RemembersSame (M.kept memo.old) (M.kept memo.new) }
    {
        let mut known = Known::new(alloc);
        for pair in &self.entering {
            let evaluated = evaluate(alloc, view, plan, &mut known, *pair, memo, nested, steps)?;
            self.evaluated.push(evaluated)?;
        }
        Ok(())
    }
}

/// Evaluates a pair, which counts a step.
pub(crate) fn evaluate<'p, V: GraphView, M: Memo<Noted = Reads>, K: Ledger, L: Ledger>(
    alloc: Global,
    view: &V,
    plan: &'p Plan,
    known: &mut Known<'p>,
    pair: Pair,
    memo: &mut M,
    nested: &mut Steps<K>,
    steps: &mut Steps<L>,
) -> Result<Evaluated, Memory>
    requires valid { IsValidView (V.graph view.now) }
    requires plan { IsKnownPlan (V.graph view.now).terms (plan_of plan.now).shapes }
    requires pair { IsKnownPair (plan_of plan.now).shapes (V.graph view.now) pair }
    requires known { IsKnownOf known.old (V.graph view.now) }
    requires recall { IsRecallOf SameMembers (plan_of plan.now).shapes (V.graph view.now)
        (M.recalled memo.old) }
    ensures known { IsKnownOf known.new (V.graph view.now) }
    ensures pair { IfOk result (λ found. found.pair ≡ pair) }
    ensures right { IfOk result (IsRight (plan_of plan.now).shapes (V.graph view.now)) }
    ensures step { steps.new ≡ steps.old + 1 }
    ensures nested { OnOk result (BringsNested (plan_of plan.now).shapes (V.graph view.now)
        (M.recalled memo.old) (M.recalled memo.new) (pair ∷ []) nested.old nested.new) }
    ensures kept { RemembersSame (M.kept memo.old) (M.kept memo.new) }
{
    let answer = eval_pair(
        alloc, view, plan, known, pair.shape, pair.node, memo, nested, steps,
    )?;
    Ok(Evaluated { pair, answer })
}
