//! The answer for a pair: first those for the pairs that it asks, then its own.
ghost use Rattle.std.specs.Prelude.{◌≡◌, ◌<◌, length, IfOk, OnOk};
ghost use Rattle.graph_view.specs.Valid.{IsValidView};
ghost use Rattle.comp_core.specs.Memo.{RemembersSame};
ghost use Rattle.shape_eval.specs.Known.{IsKnownOf};
ghost use Rattle.shape_eval.specs.Nested.{nested_in};
ghost use Rattle.shape_eval.specs.Plan.{IsKnownPlan, RefersLower};
ghost use Rattle.shape_eval.specs.Recalled.{AreRecalled, AreRight, Brings, IsRecallOf};
ghost use Rattle.shape_eval.specs.inner.Answers.{AnswersFollow, AsksBelow, IsAnswer};

use crate::checking::{asked_by, check_each, find_values};
use crate::told::{Told, is_held};
use crate::{Constraint, Known, PlanShape};
use comp_core::{At, Component, Memo, Pair, PairAnswer};
use graph_view::{GraphView, Notes};
use path_eval::paths_depend_on_their_reads;
use shx_term::{Memory, Steps};
use std::alloc::Global;
use std::sync::ledger::Ledger;

/// The answer for a pair. The pairs that it asks and that are not remembered are answered on the way, each
/// once, are counted, and are remembered behind it. It recurses to lower shapes alone.
pub(crate) fn answer<'p, V: GraphView, M: Memo, L: Ledger>(
    alloc: Global,
    view: &V,
    shapes: &'p [PlanShape],
    known: &mut Known<'p>,
    pair: Pair,
    memo: &mut M,
    nested: &mut Steps<L>,
) -> Result<PairAnswer<M::Noted>, Memory>
    requires valid { IsValidView (V.graph view.now) }
    requires refers { RefersLower shapes.now }
    requires plan { IsKnownPlan (V.graph view.now).terms shapes.now }
    requires shape { pair.shape < length shapes.now }
    requires node { pair.node < length (V.graph view.now).terms }
    requires recall { IsRecallOf M.Noted.has shapes.now (V.graph view.now) (M.recalled memo.old) }
    requires known { IsKnownOf known.old (V.graph view.now) }
    ensures known { IsKnownOf known.new (V.graph view.now) }
    ensures answer { IfOk result (IsAnswer M.Noted.has shapes.now (V.graph view.now) pair) }
    ensures recall { OnOk result
        (IsRecallOf M.Noted.has shapes.now (V.graph view.now) (M.recalled memo.new)) }
    ensures nested { OnOk result
        (AreRecalled (M.recalled memo.new) (nested_in shapes.now (V.graph view.now) pair)) }
    ensures brings { OnOk result (Brings (M.recalled memo.old) (M.recalled memo.new)
        (nested_in shapes.now (V.graph view.now) pair) nested.old nested.new) }
    ensures right { AreRight M.Noted.has shapes.now (V.graph view.now) (M.recalled memo.new) }
    ensures kept { RemembersSame (M.kept memo.old) (M.kept memo.new) }
{
    let shape = &shapes[pair.shape as usize];
    let mut reads: M::Noted = Notes::new(alloc);
    answers_follow();
    let _ = view.pool();
    if shape.deactivated {
        return Ok(PairAnswer {
            rows: Vec::new(alloc),
            reads,
        });
    }
    let values = find_values(alloc, view, &shape.path, pair.node, &mut reads)?;
    let asked = asked_by(alloc, &shape.constraints, &values)?;
    for below in &asked {
        if is_held(shapes, memo, below) {
            continue;
        }
        let found = answer(alloc, view, shapes, known, *below, memo, nested)?;
        memo.remember(*below, found)?;
        nested.tick();
    }
    let at = At {
        focus: pair.node,
        shape: pair.shape,
    };
    let constraints = &shape.constraints;
    let told = Told {
        shapes,
        memo: &*memo,
    };
    let rows = check_each(
        alloc,
        view,
        &told,
        known,
        constraints,
        at,
        &values,
        &mut reads,
    )?;
    reads.pack(alloc)?;
    Ok(PairAnswer { rows, reads })
}

// Over the results of the pairs that it asks, a shape has its results; and it asks value nodes at lower
// shapes.
pub(crate) fn answers_follow()
    ensures follow { AnswersFollow }
    ensures asks { AsksBelow }
{
    Constraint::laws();
    paths_depend_on_their_reads();
}
