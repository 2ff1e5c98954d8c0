//! A block of Turtle, which states shapes and data, and questions. A question is a line
//! `? ASKED = DUE | KEYS`: this is due, and these keys are read for it, and no others; of answers those that
//! are read for the pair itself. With `not` before it, this is not so.
ghost use Rattle.graph_view.specs.ListGraph.{plain_graph};
ghost use Rattle.graph_view.specs.Valid.{IsValidView};
ghost use Rattle.shape_eval.specs.Plan.{IsKnownPlan};
ghost use Rattle.shape_eval.specs.Planned.{plan_of};

use super::due::Due;
use super::keys::keys_of;
use super::stated::{graph_of, plan_in};
use super::{orders, pairs, rows, targets, told};
use due_view::is_valid;
use graph_view::{GraphView, ListGraph, Reads};
use row_tools::{RowFault, all_blocks_met, cut};
use shape_eval::Plan;
use std::alloc::Global;
use std::marker::Brand;
use std::sync::ledger::Blank;
use std::test::Fail;

/// What is asked, with its first word, and the answer that is due.
#[derive(Clone, Copy)]
pub(super) struct Question<'a> {
    what: &'a str,
    pub(super) of: &'a str,
    pub(super) due: Due<'a>,
}

fn question_of<'a>(asked: &'a str, due: &'a str) -> Question<'a> {
    let (what, of) = asked.split_once(' ').unwrap_or((asked, ""));
    Question {
        what,
        of,
        due: Due::new(due),
    }
}

// Whether a question has the answer that is due, over these keys.
fn is_answered(
    alloc: Global,
    graph: &ListGraph,
    plan: &Plan,
    keys: &Reads,
    question: &Question,
) -> Result<bool, RowFault>
    requires valid { IsValidView (plain_graph graph.now) }
    requires plan { IsKnownPlan graph.now.pool.terms (plan_of plan.now).shapes }
{
    let Question { what, of, due } = *question;
    match what {
        "pair" => pairs::is_pair::<Brand, Brand>(
            alloc,
            graph,
            plan,
            keys,
            question,
            Blank::new(1),
            Blank::new(1),
        ),
        "targets" => targets::are_targets(alloc, graph, plan, keys, question),
        "begun" => Ok(targets::are_begun(graph.pool(), plan, due)),
        "order" => orders::is_order(alloc, of, due),
        "chain" => orders::is_order_of_chain(alloc, of, due),
        "told" => told::is_told(alloc, of, due),
        _ => Err(RowFault::Unread),
    }
}

fn is_so(alloc: Global, graph: &ListGraph, plan: &Plan, text: &str) -> Result<bool, RowFault>
    requires valid { IsValidView (plain_graph graph.now) }
    requires plan { IsKnownPlan graph.now.pool.terms (plan_of plan.now).shapes }
{
    let (asked, rest) = cut(text, " =")?;
    let (due, keys) = rest.split_once(" | ").unwrap_or((rest, ""));
    let keys = keys_of(alloc, graph.pool(), plan, keys.trim_end())?;
    is_answered(alloc, graph, plan, &keys, &question_of(asked, due))
}

// Whether a question is as it says.
fn is_as_said(alloc: Global, graph: &ListGraph, plan: &Plan, text: &str) -> Result<bool, RowFault>
    requires valid { IsValidView (plain_graph graph.now) }
    requires plan { IsKnownPlan graph.now.pool.terms (plan_of plan.now).shapes }
{
    let Some(text) = text.strip_prefix("not ") else {
        return is_so(alloc, graph, plan, text);
    };
    match is_so(alloc, graph, plan, text) {
        Ok(is_so) => Ok(!is_so),
        Err(RowFault::Unread) => Ok(true),
        Err(RowFault::Memory) => Err(RowFault::Memory),
    }
}

fn are_as_said(alloc: Global, graph: &ListGraph, questions: &str) -> Result<bool, RowFault> {
    if !is_valid(graph) {
        return Err(RowFault::Unread);
    }
    let plan = plan_in(alloc, graph)?;
    for text in questions.split("\n? ") {
        if !is_as_said(alloc, graph, &plan, text)? {
            return Ok(false);
        }
    }
    Ok(true)
}

fn is_met(alloc: Global, block: &str) -> Result<bool, RowFault> {
    let (text, questions) = cut(block, "\n? ")?;
    let graph = graph_of(alloc, text)?;
    are_as_said(alloc, &graph, questions)
}

#[test]
fn questions_are_answered_as_said(rt: HostRuntime) -> Result<(), Fail> {
    let alloc = rt.alloc();
    all_blocks_met(alloc, rows::components::ROWS, is_met)?;
    all_blocks_met(alloc, rows::shapes::ROWS, is_met)?;
    all_blocks_met(alloc, rows::targets::ROWS, is_met)?;
    all_blocks_met(alloc, rows::orders::ROWS, is_met)
}
