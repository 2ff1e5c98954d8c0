//! What is true of plans at all, as contracts of functions that do nothing.
ghost use Rattle.std.specs.Prelude.{◌≡◌, ◌<◌, ◌++◌, nat_eq, List, length, All};
ghost use Rattle.std.specs.List.{IsDistinct};
ghost use Rattle.shx_term.specs.declared.term.Term.{Term};
ghost use Rattle.graph_view.specs.Graph.{Graph};
ghost use Rattle.graph_view.specs.Valid.{IsValidView};
ghost use Rattle.shape_eval.specs.declared.shape.PlanShape.{PlanShape};
ghost use Rattle.shape_eval.specs.Plan.{IsKnownPlan, IsPlan, Planned, planned};
ghost use Rattle.shape_eval.specs.Report.{pairs, report};
ghost use Rattle.edit_engine.specs.Applied.{HasMoreTerms};
ghost use Rattle.edit_engine.specs.MayBeAsked.{MayBeAsked};
ghost use Rattle.edit_engine.specs.inner.Recall.{ChangesLeaveWhatStays};

use shape_eval::{
    nested_pairs_are_read, nested_pairs_stand_below, reads_are_own_or_below,
    results_depend_on_reads, targets_depend_on_reads,
};

/// A plan targets shapes of its own, each once.
pub fn plans_target_shapes_once()
    ensures within { (terms : List Term) (shapes : List PlanShape) → IsPlan terms shapes
        → All (λ n. n < length shapes) (planned terms shapes).targeted }
    ensures once { (terms : List Term) (shapes : List PlanShape) → IsPlan terms shapes
        → IsDistinct nat_eq (planned terms shapes).targeted }
{}

/// A plan whose numbers have terms, of which it was read, is known also where there are more terms.
pub fn plans_stay_known()
    ensures { (terms more : List Term) (shapes : List PlanShape) → IsKnownPlan terms shapes
        → IsKnownPlan (terms ++ more) shapes }
{}

/// Terms that are entered beside the same triples change neither the pairs nor the report: so they are those
/// of before where an edit wanted memory.
pub fn entered_terms_change_no_report()
    ensures pairs { (plan : Planned) (due : List Term) (g h : Graph) → MayBeAsked plan g
        → HasMoreTerms due g h → IsValidView h → pairs plan h ≡ pairs plan g }
    ensures report { (plan : Planned) (due : List Term) (g h : Graph) → MayBeAsked plan g
        → HasMoreTerms due g h → IsValidView h → report plan h ≡ report plan g }
{
    results_depend_on_reads();
    targets_depend_on_reads();
}

/// What a change of a graph leaves of what is remembered: those pairs whose reads it does not touch, with all
/// that is nested in them.
pub(crate) fn changes_leave_what_stays()
    ensures { ChangesLeaveWhatStays }
{
    results_depend_on_reads();
    nested_pairs_are_read();
    nested_pairs_stand_below();
    reads_are_own_or_below();
}
