//! What a shape finds at a node, and what is read for it.
ghost use Rattle.std.specs.Prelude.{◌≡◌, ◌+◌, ◌<◌, IfOk, OnOk, length};
ghost use Rattle.graph_view.specs.ListGraph.{plain_graph};
ghost use Rattle.graph_view.specs.Valid.{IsValidView};
ghost use Rattle.shape_eval.specs.Plan.{IsKnownPlan};
ghost use Rattle.shape_eval.specs.Planned.{plan_of};

use super::asked::Question;
use super::due::Due;
use super::kinds::name_of;
use super::words::{id_of, take_any, take_term};
use comp_core::{Component, DetailRow, Pair, ResultRow, ShapeNo};
use due_view::{DueView, is_known};
use graph_view::{GraphView, Key, ListGraph, Reads};
use row_tools::{RowFault, cut};
use shape_eval::{
    Answers, Constraint, Known, PairAnswer, Plan, a_report_is_empty_where_all_conform,
    edits_beside_a_pair, eval_pair, levels_do_not_matter, nested_pairs_are_read,
    nested_pairs_stand_below, reads_are_own_or_below, reads_have_terms, results_depend_on_reads,
    results_have_terms, targets_depend_on_reads,
};
use shape_order::{an_order_has_no_cycle, levels_are_the_longest_chains};
use shx_term::{Memory, Pool, Steps};
use std::alloc::Global;
use std::sync::ledger::{Blank, Ledger};

/// The number of the shape of a word.
pub(super) fn shape_of(
    alloc: Global,
    pool: &Pool,
    plan: &Plan,
    word: &str,
) -> Result<ShapeNo, RowFault>
    ensures { IfOk result (λ shape. shape < length (plan_of plan.now).shapes) }
{
    match plan.number(id_of(alloc, pool, word)?) {
        Some(shape) if shape < plan.len() => Ok(shape),
        _ => Err(RowFault::Unread),
    }
}

// A shape and a node.
fn pair_of(alloc: Global, pool: &Pool, plan: &Plan, words: &str) -> Result<Pair, RowFault>
    ensures { IfOk result (λ pair. pair.shape < length (plan_of plan.now).shapes) }
{
    let (shape, node) = cut(words, " ")?;
    Ok(Pair {
        shape: shape_of(alloc, pool, plan, shape)?,
        node: id_of(alloc, pool, node)?,
    })
}

fn take_detail(pool: &Pool, plan: &Plan, row: &DetailRow, due: &mut Due) {
    if row.shape >= plan.len() {
        return due.take("no shape");
    }
    due.take(name_of(row.kind));
    take_term(pool, plan.shape(row.shape).node, due);
    take_term(pool, row.focus, due);
    take_any(pool, row.predicate, due);
    take_any(pool, row.value, due);
}

// A result is told between brackets: its component, its shape, its focus node, its predicate and its value,
// with `-` for what it does not have; then, behind ` < ` each, those on which it rests.
fn take_row(pool: &Pool, plan: &Plan, row: &ResultRow, due: &mut Due) {
    due.take(" (");
    take_detail(pool, plan, &row.without_details(), due);
    for detail in row.details.as_slice() {
        due.take(" < ");
        take_detail(pool, plan, detail, due);
    }
    due.take(")");
}

// Adds the keys of parts of the graph.
fn add_parts(reads: &Reads, all: &mut Reads) -> Result<(), Memory> {
    for key in reads.keys() {
        match *key {
            Key::Answer(_, _) => {}
            _ => all.add(*key)?,
        }
    }
    Ok(())
}

// Adds the parts of the graph that were read for answers.
fn add_nested(alloc: Global, nested: Answers<Reads>, all: &mut Reads) -> Result<(), Memory> {
    for (_, answer) in &nested.into_all(alloc)? {
        add_parts(&answer.reads, all)?;
    }
    Ok(())
}

// The answer of a pair, which takes one step, whatever nests. Beside what was read for the pair itself stand
// the parts of the graph that were read for what is nested in it.
fn found<V: GraphView, K: Ledger, L: Ledger>(
    alloc: Global,
    view: &V,
    plan: &Plan,
    pair: Pair,
    nested: &mut Steps<K>,
    steps: &mut Steps<L>,
) -> Result<PairAnswer<Reads>, RowFault>
    requires valid { IsValidView (V.graph view.now) }
    requires plan { IsKnownPlan (V.graph view.now).terms (plan_of plan.now).shapes }
    requires shape { pair.shape < length (plan_of plan.now).shapes }
    ensures { OnOk result (steps.new ≡ steps.old + 1) }
{
    let mut known = Known::new(alloc);
    let mut answers: Answers<Reads> = Answers::new(alloc);
    if !is_known(view, pair.node) {
        return Err(RowFault::Unread);
    }
    let found = eval_pair(
        alloc,
        view,
        plan,
        &mut known,
        pair.shape,
        pair.node,
        &mut answers,
        nested,
        steps,
    );
    match found {
        Ok(mut answer) => {
            add_nested(alloc, answers, &mut answer.reads)?;
            Ok(answer)
        }
        Err(_) => Err(RowFault::Unread),
    }
}

/// Whether a pair has the results that are due, and these keys are read for it: of the graph in all, and of
/// answers those that it asks itself. Nothing but these keys may be looked up: a look-up beside them is one
/// for which memory is refused.
pub(super) fn is_pair<K: Ledger, L: Ledger>(
    alloc: Global,
    graph: &ListGraph,
    plan: &Plan,
    keys: &Reads,
    question: &Question,
    nested: Blank,
    steps: Blank,
) -> Result<bool, RowFault>
    requires valid { IsValidView (plain_graph graph.now) }
    requires plan { IsKnownPlan graph.now.pool.terms (plan_of plan.now).shapes }
    requires nested_name { nested.name ≡ K.name }
    requires nested_parts { nested.parts ≡ K.parts }
    requires nested_some { nested.parts ≡ 1 }
    requires steps_name { steps.name ≡ L.name }
    requires steps_parts { steps.parts ≡ L.parts }
    requires steps_some { steps.parts ≡ 1 }
{
    let pair = pair_of(alloc, graph.pool(), plan, question.of)?;
    let mut due = question.due;
    let view = DueView::new(graph, keys);
    let mut nested: Steps<K> = Steps::open(nested);
    let mut steps: Steps<L> = Steps::open(steps);
    let answer = found(alloc, &view, plan, pair, &mut nested, &mut steps)?;
    for row in &answer.rows {
        take_row(graph.pool(), plan, row, &mut due);
    }
    Ok(due.is_found() && view.are_read(&answer.reads))
}

#[test]
fn laws_are_at_hand() {
    results_depend_on_reads();
    targets_depend_on_reads();
    levels_do_not_matter();
    edits_beside_a_pair();
    results_have_terms();
    reads_have_terms();
    nested_pairs_are_read();
    nested_pairs_stand_below();
    reads_are_own_or_below();
    a_report_is_empty_where_all_conform();
    Constraint::laws();
    an_order_has_no_cycle();
    levels_are_the_longest_chains();
}
