//! The evaluation of a shape at a node.
ghost use Rattle.std.specs.Prelude.{◌≡◌, ◌+◌, ◌<◌, length, IfOk, OnOk};
ghost use Rattle.graph_view.specs.Valid.{IsValidView};
ghost use Rattle.comp_core.specs.Memo.{RemembersSame};
ghost use Rattle.shape_eval.specs.Known.{IsKnownOf};
ghost use Rattle.shape_eval.specs.Nested.{nested_in};
ghost use Rattle.shape_eval.specs.Own.{own_reads};
ghost use Rattle.shape_eval.specs.Plan.{IsKnownPlan};
ghost use Rattle.shape_eval.specs.Planned.{plan_of};
ghost use Rattle.shape_eval.specs.Recalled.{AreRecalled, AreRight, Brings, IsRecallOf};
ghost use Rattle.shape_eval.specs.Report.{at_shape};
ghost use Rattle.shape_eval.specs.Results.{results};

use crate::answering::answer;
use crate::{Known, Plan};
use comp_core::{Memo, Pair, PairAnswer, ShapeNo};
use graph_view::GraphView;
use shx_term::{Id, Memory, Steps};
use std::alloc::Global;
use std::sync::ledger::Ledger;

/// The results of a shape at a node (SHACL, section 3.4), in order, and the keys that were read for them:
/// those of parts of the graph, and of the pairs that it asks the keys of what was found of these. It counts
/// one step, also where memory is refused.
///
/// Each pair of a shape and a node that is asked on the way, and is not remembered, is evaluated once, is
/// counted in `nested`, and is remembered; the pair itself is not. It recurses as deep as shapes refer to one
/// another in the plan.
pub fn eval_pair<'p, V: GraphView, M: Memo, K: Ledger, L: Ledger>(
    alloc: Global,
    view: &V,
    plan: &'p Plan,
    known: &mut Known<'p>,
    shape: ShapeNo,
    node: Id,
    memo: &mut M,
    nested: &mut Steps<K>,
    steps: &mut Steps<L>,
) -> Result<PairAnswer<M::Noted>, Memory>
    requires valid { IsValidView (V.graph view.now) }
    requires plan { IsKnownPlan (V.graph view.now).terms (plan_of plan.now).shapes }
    requires shape { shape < length (plan_of plan.now).shapes }
    requires node { node < length (V.graph view.now).terms }
    requires known { IsKnownOf known.old (V.graph view.now) }
    requires recall { IsRecallOf M.Noted.has (plan_of plan.now).shapes (V.graph view.now)
        (M.recalled memo.old) }
    ensures known { IsKnownOf known.new (V.graph view.now) }
    ensures step { steps.new ≡ steps.old + 1 }
    ensures rows { IfOk result (λ answer. answer.rows.items
        ≡ results (plan_of plan.now).shapes (V.graph view.now) (at_shape shape node)) }
    ensures reads { IfOk result (λ answer. M.Noted.has answer.reads
        (own_reads (plan_of plan.now).shapes (V.graph view.now) (at_shape shape node))) }
    ensures recall { OnOk result (IsRecallOf M.Noted.has (plan_of plan.now).shapes (V.graph view.now)
        (M.recalled memo.new)) }
    ensures nested { OnOk result (AreRecalled (M.recalled memo.new)
        (nested_in (plan_of plan.now).shapes (V.graph view.now) (at_shape shape node))) }
    ensures brings { OnOk result (Brings (M.recalled memo.old) (M.recalled memo.new)
        (nested_in (plan_of plan.now).shapes (V.graph view.now) (at_shape shape node))
        nested.old nested.new) }
    ensures right { AreRight M.Noted.has (plan_of plan.now).shapes (V.graph view.now)
        (M.recalled memo.new) }
    ensures kept { RemembersSame (M.kept memo.old) (M.kept memo.new) }
{
    steps.tick();
    let pair = Pair { shape, node };
    let found = answer(alloc, view, plan.shapes(), known, pair, memo, nested)?;
    Ok(found)
}
