//! All results of a graph.
ghost use Rattle.std.specs.Prelude.{◌≡◌, ◌+◌, ◌<◌, ◌++◌, flat_map, length, map, IfOk, OnOk};
ghost use Rattle.graph_view.specs.Graph.{HasTerms};
ghost use Rattle.graph_view.specs.Valid.{IsValidView};
ghost use Rattle.shx_term.specs.declared.limits.Limits.{Limits as LimitsOf};
ghost use Rattle.text_output.specs.declared.format.Format.{Format};
ghost use Rattle.shape_eval.specs.Answered.{answered};
ghost use Rattle.shape_eval.specs.Known.{IsKnownOf};
ghost use Rattle.shape_eval.specs.Plan.{IsKnownPlan};
ghost use Rattle.shape_eval.specs.Planned.{plan_of};
ghost use Rattle.shape_eval.specs.Recalled.{BringsNested, IsRecallOf};
ghost use Rattle.shape_eval.specs.Report.{at_shape, pairs, report};
ghost use Rattle.shape_eval.specs.Results.{results};
ghost use Rattle.shape_eval.specs.Targets.{target_nodes};
ghost use Rattle.edit_engine.specs.Remembered.{nested_count};
ghost use Rattle.script_run.specs.Script.{first_work};
ghost use Rattle.script_run.specs.ScriptState.{ScriptState};
ghost use Rattle.script_run.specs.Work.{and_then, evaluating};
ghost use Rattle.script_run.specs.Stored.{IsValidation, Stands};
ghost use Rattle.shacl_run.specs.inner.NodeRows.{AreRowsAt};

use crate::node_rows::{NodeRows, add_in_term_order, keep_rows};
use comp_core::{ResultRow, ShapeNo};
use edit_engine::same_graphs_answer_alike;
use graph_view::{GraphView, Notes, Unnoted};
use script_run::Validation;
use shape_eval::{Answers, Known, Plan, eval_pair, eval_target_by_number};
use shx_term::{Id, Memory, Steps};
use std::alloc::Global;
use std::sync::ledger::Ledger;

/// The results of a validation's graph in the order of a report, of which nothing else is kept. Each
/// evaluation of a shape at a target node counts a step. What nested pairs come to is remembered until all
/// results are there, so that each of them is evaluated once, which is counted in `nested`.
pub fn report_of<K: Ledger, L: Ledger>(
    alloc: Global,
    validation: &Validation,
    nested: &mut Steps<K>,
    steps: &mut Steps<L>,
) -> Result<Vec<ResultRow>, Memory>
    requires { Stands validation.now }
    ensures rows { (limits : LimitsOf) (format : Format) (s : ScriptState)
        → IsValidation limits format s validation.now
        → IfOk result (λ rows. rows.items ≡ report s.plan s.graph) }
    ensures work { (limits : LimitsOf) (format : Format) (s : ScriptState)
        → IsValidation limits format s validation.now
        → OnOk result (evaluating steps.new nested.new
        ≡ and_then (evaluating steps.old nested.old) (first_work s)) }
{
    // The graph is stored in an order of its own, which makes no difference.
    same_graphs_answer_alike();
    evaluate(alloc, &validation.graph, &validation.plan, nested, steps)
}

// The results of a graph.
fn evaluate<V: GraphView, K: Ledger, L: Ledger>(
    alloc: Global,
    view: &V,
    plan: &Plan,
    nested: &mut Steps<K>,
    steps: &mut Steps<L>,
) -> Result<Vec<ResultRow>, Memory>
    requires valid { IsValidView (V.graph view.now) }
    requires plan { IsKnownPlan (V.graph view.now).terms (plan_of plan.now).shapes }
    ensures rows { IfOk result (λ rows. rows.items ≡ report (plan_of plan.now) (V.graph view.now)) }
    ensures steps { OnOk result (steps.new
        ≡ steps.old + length (pairs (plan_of plan.now) (V.graph view.now))) }
    ensures nested { OnOk result (nested.new
        ≡ nested.old + nested_count (plan_of plan.now) (V.graph view.now)) }
{
    let mut rows = Vec::new(alloc);
    let mut known = Known::new(alloc);
    let mut answers = Answers::new(alloc);
    for shape in plan.targeted() {
        add_shape(
            alloc,
            view,
            plan,
            &mut known,
            *shape,
            &mut answers,
            nested,
            steps,
            &mut rows,
        )?;
    }
    Ok(rows)
}

// Adds the results of a shape at each of its target nodes, by the nodes in term order. It evaluates them in
// the order of their numbers, and sorts those that have results.
fn add_shape<'p, V: GraphView, K: Ledger, L: Ledger>(
    alloc: Global,
    view: &V,
    plan: &'p Plan,
    known: &mut Known<'p>,
    shape: ShapeNo,
    answers: &mut Answers<Unnoted>,
    nested: &mut Steps<K>,
    steps: &mut Steps<L>,
    rows: &mut Vec<ResultRow>,
) -> Result<(), Memory>
    requires valid { IsValidView (V.graph view.now) }
    requires plan { IsKnownPlan (V.graph view.now).terms (plan_of plan.now).shapes }
    requires shape { shape < length (plan_of plan.now).shapes }
    requires known { IsKnownOf known.old (V.graph view.now) }
    requires recall { IsRecallOf ⟦<Unnoted as Notes>⟧.has (plan_of plan.now).shapes (V.graph view.now)
        (answered answers.old) }
    ensures known { IsKnownOf known.new (V.graph view.now) }
    ensures rows { OnOk result (rows.new.items ≡ rows.old.items
        ++ flat_map (results (plan_of plan.now).shapes (V.graph view.now))
        (map (at_shape shape) (target_nodes (plan_of plan.now).shapes (V.graph view.now) shape))) }
    ensures steps { OnOk result (steps.new ≡ steps.old
        + length (target_nodes (plan_of plan.now).shapes (V.graph view.now) shape)) }
    ensures nested { OnOk result (BringsNested ⟦<Unnoted as Notes>⟧.has (plan_of plan.now).shapes
        (V.graph view.now) (answered answers.old) (answered answers.new)
        (map (at_shape shape) (target_nodes (plan_of plan.now).shapes (V.graph view.now) shape))
        nested.old nested.new) }
{
    let nodes = eval_target_by_number(alloc, view, plan, shape, &mut Unnoted::new(alloc))?;
    let found = rows_at(
        alloc, view, plan, known, shape, &nodes, answers, nested, steps,
    )?;
    add_in_term_order(view.pool(), found, rows)?;
    Ok(())
}

// The results of a shape at some nodes, by node, without the nodes that have none.
fn rows_at<'p, V: GraphView, K: Ledger, L: Ledger>(
    alloc: Global,
    view: &V,
    plan: &'p Plan,
    known: &mut Known<'p>,
    shape: ShapeNo,
    nodes: &[Id],
    answers: &mut Answers<Unnoted>,
    nested: &mut Steps<K>,
    steps: &mut Steps<L>,
) -> Result<Vec<NodeRows>, Memory>
    requires valid { IsValidView (V.graph view.now) }
    requires plan { IsKnownPlan (V.graph view.now).terms (plan_of plan.now).shapes }
    requires shape { shape < length (plan_of plan.now).shapes }
    requires nodes { HasTerms (V.graph view.now) nodes.now }
    requires known { IsKnownOf known.old (V.graph view.now) }
    requires recall { IsRecallOf ⟦<Unnoted as Notes>⟧.has (plan_of plan.now).shapes (V.graph view.now)
        (answered answers.old) }
    ensures known { IsKnownOf known.new (V.graph view.now) }
    ensures rows { IfOk result (λ found. AreRowsAt
        (λ node. results (plan_of plan.now).shapes (V.graph view.now) (at_shape shape node))
        nodes.now found.items) }
    ensures steps { OnOk result (steps.new ≡ steps.old + length nodes.now) }
    ensures nested { OnOk result (BringsNested ⟦<Unnoted as Notes>⟧.has (plan_of plan.now).shapes
        (V.graph view.now) (answered answers.old) (answered answers.new)
        (map (at_shape shape) nodes.now) nested.old nested.new) }
{
    let mut found = Vec::new(alloc);
    for node in nodes {
        let answer = eval_pair(
            alloc, view, plan, known, shape, *node, answers, nested, steps,
        )?;
        keep_rows(alloc, &mut found, *node, answer.rows)?;
    }
    Ok(found)
}
