//! The renewal of a change, and that from nothing.
ghost use Rattle.std.specs.Prelude.{◌≡◌, ◌+◌, ◌<◌, ◌^◌, [], ◌++◌, length, All, IfOk, OnOk};
ghost use Rattle.graph_view.specs.Patched.{IsPatch, patched};
ghost use Rattle.graph_view.specs.Valid.{IsValidTriple};
ghost use Rattle.shape_eval.specs.Planned.{plan_of};
ghost use Rattle.shape_eval.specs.Report.{pairs};
ghost use Rattle.read_records.specs.Recall.{KeepsSame, recalled};
ghost use Rattle.edit_engine.specs.MayBeAsked.{MayBeAsked};
ghost use Rattle.edit_engine.specs.Recorded.{AreRecorded};
ghost use Rattle.edit_engine.specs.Renewal.{IsOpening, IsRenewal};
ghost use Rattle.edit_engine.specs.inner.Parts.{OpensTargets};
ghost use Rattle.edit_engine.specs.inner.Recall.{BringsNested, RemembersNested, RenewsRecall};
ghost use Rattle.shape_eval.specs.Answered.{answered};
ghost use Rattle.indexmap.specs.IndexMap.{IsEmpty};

use crate::laws::changes_leave_what_stays;
use crate::renewal::Renewal;
use graph_view::{GraphView, Patched, Reads, look_ups_give_what_is_held, patches_agree};
use read_records::{Recall, Records};
use shape_eval::{
    Answers, Plan, nested_pairs_stand_below, reads_are_own_or_below, targets_depend_on_reads,
};
use shx_term::{Memory, Steps, Triple};
use std::alloc::Global;
use std::sync::ledger::Ledger;
use triple_store::Overlay;

/// A change of up to so many triples added, and as many removed, is passed at each look-up; a larger one is
/// indexed first.
const FEW: usize = 16;

/// What a change makes of what is kept: the graph without some triples and with others is looked up before it
/// is made. Each pair that the change touches is evaluated once, and no other; each evaluation counts a step.
/// What it touches of what is remembered is masked, and each nested pair that is needed is evaluated once, is
/// counted, and is staged.
///
/// It costs what these pairs cost, and some look-ups; where a subclass is stated or taken back, also some for
/// each of its instances, and for each subclass of the classes in the targets that are touched.
pub(crate) fn renewal_of<V: GraphView, K: Ledger, L: Ledger>(
    alloc: Global,
    view: &V,
    plan: &Plan,
    records: &Records,
    recall: &mut Recall,
    added: &[Triple],
    removed: &[Triple],
    nested: &mut Steps<K>,
    steps: &mut Steps<L>,
) -> Result<Renewal, Memory>
    requires plan { MayBeAsked (plan_of plan.now) (V.graph view.now) }
    requires recorded { AreRecorded (plan_of plan.now).shapes (plan_of plan.now).targeted (V.graph view.now)
        records.now }
    requires patch { IsPatch (V.graph view.now) added.now removed.now }
    requires valid { All (IsValidTriple (V.graph view.now).terms) added.now }
    requires countable { length (patched (V.graph view.now) added.now removed.now).triples < 2 ^ 64 }
    requires remembers { RemembersNested (plan_of plan.now).shapes (V.graph view.now)
        (pairs (plan_of plan.now) (V.graph view.now)) (recalled recall.old) }
    requires settled { recall.old.staged ≡ [] }
    ensures renewal { IfOk result (IsRenewal (plan_of plan.now) (V.graph view.now)
        (patched (V.graph view.now) added.now removed.now) (added.now ++ removed.now)) }
    ensures steps { IfOk result (λ renewal. steps.new ≡ steps.old + length renewal.evaluated.items) }
    ensures recall { OnOk result (RenewsRecall (plan_of plan.now) (V.graph view.now)
        (patched (V.graph view.now) added.now removed.now) (added.now ++ removed.now)
        (recalled recall.old) (recalled recall.new) nested.old nested.new) }
    ensures kept { KeepsSame recall.old recall.new }
{
    if added.len().max(removed.len()) <= FEW {
        let after = Patched::new(view, added, removed);
        return renewal_beside(
            alloc, view, &after, plan, records, recall, added, removed, nested, steps,
        );
    }
    let after = Overlay::new(alloc, view, added, removed)?;
    renewal_beside(
        alloc, view, &after, plan, records, recall, added, removed, nested, steps,
    )
}

// The same, where the graph after the change is at hand.
fn renewal_beside<V: GraphView, W: GraphView, K: Ledger, L: Ledger>(
    alloc: Global,
    view: &V,
    after: &W,
    plan: &Plan,
    records: &Records,
    recall: &mut Recall,
    added: &[Triple],
    removed: &[Triple],
    nested: &mut Steps<K>,
    steps: &mut Steps<L>,
) -> Result<Renewal, Memory>
    requires after { W.graph after.now ≡ patched (V.graph view.now) added.now removed.now }
    requires plan { MayBeAsked (plan_of plan.now) (V.graph view.now) }
    requires recorded { AreRecorded (plan_of plan.now).shapes (plan_of plan.now).targeted (V.graph view.now)
        records.now }
    requires patch { IsPatch (V.graph view.now) added.now removed.now }
    requires valid { All (IsValidTriple (V.graph view.now).terms) added.now }
    requires countable { length (patched (V.graph view.now) added.now removed.now).triples < 2 ^ 64 }
    requires remembers { RemembersNested (plan_of plan.now).shapes (V.graph view.now)
        (pairs (plan_of plan.now) (V.graph view.now)) (recalled recall.old) }
    requires settled { recall.old.staged ≡ [] }
    ensures renewal { IfOk result (IsRenewal (plan_of plan.now) (V.graph view.now)
        (patched (V.graph view.now) added.now removed.now) (added.now ++ removed.now)) }
    ensures steps { IfOk result (λ renewal. steps.new ≡ steps.old + length renewal.evaluated.items) }
    ensures recall { OnOk result (RenewsRecall (plan_of plan.now) (V.graph view.now)
        (patched (V.graph view.now) added.now removed.now) (added.now ++ removed.now)
        (recalled recall.old) (recalled recall.new) nested.old nested.new) }
    ensures kept { KeepsSame recall.old recall.new }
{
    targets_depend_on_reads();
    reads_are_own_or_below();
    nested_pairs_stand_below();
    look_ups_give_what_is_held();
    patches_agree();
    changes_leave_what_stays();
    let reached = recall.mask_change(alloc, added, removed)?;
    let touched = records.touched_by_change(alloc, added, removed, reached.as_slice())?;
    let mut renewal = Renewal::new(alloc);
    renewal.renew_targets(alloc, view, after, plan, &touched, added, removed)?;
    renewal.evaluate_touched(alloc, after, plan, &touched, recall, nested, steps)?;
    renewal.evaluate_entering(alloc, after, plan, recall, nested, steps)?;
    Ok(renewal)
}

/// What is to be kept where nothing is: the targets, and what each pair comes to. Each pair is evaluated
/// once, which counts a step; so is each nested pair, which is counted and remembered.
pub(crate) fn opening_of<V: GraphView, K: Ledger, L: Ledger>(
    alloc: Global,
    view: &V,
    plan: &Plan,
    answers: &mut Answers<Reads>,
    nested: &mut Steps<K>,
    steps: &mut Steps<L>,
) -> Result<Renewal, Memory>
    requires plan { MayBeAsked (plan_of plan.now) (V.graph view.now) }
    requires none { IsEmpty answers.old.answers }
    ensures renewal { IfOk result (IsOpening (plan_of plan.now).shapes (V.graph view.now)
        (plan_of plan.now).targeted) }
    ensures steps { OnOk result
        (steps.new ≡ steps.old + length (pairs (plan_of plan.now) (V.graph view.now))) }
    ensures nested { OnOk result (BringsNested (plan_of plan.now).shapes (V.graph view.now)
        (answered answers.old) (answered answers.new) (pairs (plan_of plan.now) (V.graph view.now))
        nested.old nested.new) }
{
    look_ups_give_what_is_held();
    let mut renewal = targets_of(alloc, view, plan)?;
    renewal.evaluate_entering(alloc, view, plan, answers, nested, steps)?;
    Ok(renewal)
}

/// The targets of a plan, all of whose nodes are new.
pub(crate) fn targets_of<V: GraphView>(
    alloc: Global,
    view: &V,
    plan: &Plan,
) -> Result<Renewal, Memory>
    requires { MayBeAsked (plan_of plan.now) (V.graph view.now) }
    ensures { IfOk result
        (OpensTargets (plan_of plan.now).shapes (V.graph view.now) (plan_of plan.now).targeted) }
{
    let mut renewal = Renewal::new(alloc);
    for shape in plan.targeted() {
        renewal.open_target(alloc, view, plan, *shape)?;
    }
    Ok(renewal)
}
