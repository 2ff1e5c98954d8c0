ghost use Rattle.std.specs.Prelude.{◌≡◌, ◌+◌, length, IfOk, OnOk};
ghost use Rattle.shape_eval.specs.Planned.{plan_of};
ghost use Rattle.shape_eval.specs.Report.{pairs};
ghost use Rattle.shape_eval.specs.Nested.{nested_pairs};
ghost use Rattle.edit_engine.specs.MayBeAsked.{MayBeAsked};
ghost use Rattle.edit_engine.specs.Remembered.{AreAllRecalled, answer_of, nested_count};

use crate::Engine;
use crate::kept::Kept;
use crate::renewing::opening_of;
use crate::staging::terms_are_distinct;
use graph_view::{GraphEdit, GraphView};
use read_records::Recall;
use shape_eval::{Answers, Plan};
use shx_term::{Memory, Steps};
use std::alloc::Global;
use std::sync::ledger::Ledger;

impl<V: GraphEdit + Drop> Engine<V> {
    /// The engine of a plan and a graph. Each pair is evaluated once, and each evaluation counts a step; so
    /// is each nested pair, and each of these evaluations is counted in `nested`.
    pub fn open<L: Ledger, M: Ledger>(
        alloc: Global,
        plan: Plan,
        view: V,
        nested: &mut Steps<M>,
        steps: &mut Steps<L>,
    ) -> Result<Engine<V>, Memory>
        requires { MayBeAsked (plan_of plan) (V.GraphView.graph view) }
        ensures plan { IfOk result (λ engine. engine.plan ≡ plan_of plan) }
        ensures graph { IfOk result (λ engine. engine.graph ≡ V.GraphView.graph view) }
        ensures term_limit { IfOk result (λ engine. engine.term_limit ≡ V.GraphView.term_limit view) }
        ensures triple_limit { IfOk result (λ engine. engine.triple_limit ≡ V.triple_limit view) }
        ensures steps { OnOk result
            (steps.new ≡ steps.old + length (pairs (plan_of plan) (V.GraphView.graph view))) }
        ensures nested { OnOk result
            (nested.new ≡ nested.old + nested_count (plan_of plan) (V.GraphView.graph view)) }
        ensures remembered { IfOk result (λ engine. AreAllRecalled (answer_of engine.remembered)
            (nested_pairs (plan_of plan) (V.GraphView.graph view))) }
    {
        terms_are_distinct(view.pool());
        let mut answers = Answers::new(alloc);
        let renewal = opening_of(alloc, &view, &plan, &mut answers, nested, steps)?;
        let recall = Recall::of_all(alloc, answers.into_all(alloc)?)?;
        let kept = Kept::adopt(alloc, view.pool(), plan.len(), renewal, recall)?;
        let settled = view.pool().len();
        Ok(Engine {
            plan,
            view,
            kept,
            settled,
        })
    }
}
