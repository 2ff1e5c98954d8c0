//! A block: an engine is opened over its shapes and its data, takes other shapes, and goes through steps.
ghost use Rattle.std.specs.Prelude.{◌≡◌};
ghost use Rattle.shape_eval.specs.Planned.{plan_of};
ghost use Rattle.graph_view.specs.ListGraph.{plain_graph};
ghost use Rattle.edit_engine.specs.MayBeAsked.{MayBeAsked};

use super::opened::{Plans, Stated, Texts, open_both};
use super::rows::ROWS;
use super::steps::{are_counts, are_met};
use super::told::{tells, told_by};
use super::watched::{Watch, Watched};
use edit_engine::Engine;
use plan_swap::alike;
use row_tools::{RowFault, all_blocks_met, cut, in_four, number};
use shape_eval::Plan;
use shx_term::{Memory, Steps};
use std::alloc::Global;
use std::marker::Brand;
use std::sync::ledger::{Blank, Ledger};
use std::test::Fail;

// The engine takes another plan; it gives how many pairs that evaluates.
fn adopt<K: Ledger, L: Ledger>(
    alloc: Global,
    engine: &mut Engine<Watched>,
    plan: Plan,
    nested: &mut Steps<K>,
    steps: &mut Steps<L>,
) -> Result<u64, Memory>
    requires { MayBeAsked (plan_of plan) engine.old.graph }
{
    let alikes = alike(alloc, engine.plan(), &plan)?;
    engine.adopt(alloc, plan, &alikes, nested, steps)
}

// Whether another plan is refused where nothing is answered, and the engine tells the same behind it.
fn refuses<K: Ledger, L: Ledger>(
    alloc: Global,
    engine: &mut Engine<Watched>,
    plan: Plan,
    nested: &mut Steps<K>,
    steps: &mut Steps<L>,
) -> Result<bool, Memory>
    requires { MayBeAsked (plan_of plan) engine.old.graph }
{
    let told = told_by(alloc, engine)?;
    engine.view().watch(Watch::All);
    let is_refused = adopt(alloc, engine, plan, nested, steps).is_err();
    engine.view().watch(Watch::Nothing);
    Ok(is_refused && tells(alloc, engine, &told)?)
}

// Whether the engine takes another plan as is due: how many pairs that evaluates, or `refused`.
fn swaps<K: Ledger, L: Ledger>(
    alloc: Global,
    engine: &mut Engine<Watched>,
    plan: Plan,
    due: &str,
    nested: &mut Steps<K>,
    steps: &mut Steps<L>,
) -> Result<bool, RowFault>
    requires { MayBeAsked (plan_of plan) engine.old.graph }
{
    if due == "refused" {
        return Ok(refuses(alloc, engine, plan, nested, steps)?);
    }
    let evaluated = adopt(alloc, engine, plan, nested, steps)?;
    Ok(evaluated == u64::from(number(due)?))
}

// Whether the engine begins as is due: `COUNTS`, or `COUNTS → SWAPPED` where it takes another plan.
fn begins<K: Ledger, L: Ledger>(
    alloc: Global,
    engine: &mut Engine<Watched>,
    plan: Plan,
    due: &str,
    nested: &mut Steps<K>,
    steps: &mut Steps<L>,
) -> Result<bool, RowFault>
    requires { MayBeAsked (plan_of plan) engine.old.graph }
{
    match due.split_once(" → ") {
        Some((counts, due)) => Ok(
            are_counts(engine, counts)? && swaps(alloc, engine, plan, due, nested, steps)?,
        ),
        None => are_counts(engine, due),
    }
}

// A call that picks the ledgers takes no `&str`.
fn goes_through<K: Ledger, L: Ledger>(
    alloc: Global,
    plans: Plans,
    read: Stated,
    due: &Due,
    nested: Blank,
    steps: Blank,
) -> Result<bool, RowFault>
    requires old { MayBeAsked (plan_of plans.old) (plain_graph read.graph) }
    requires new { MayBeAsked (plan_of plans.new) (plain_graph read.graph) }
    requires nested_name { nested.name ≡ K.name }
    requires nested_parts { nested.parts ≡ K.parts }
    requires nested_some { nested.parts ≡ 1 }
    requires steps_name { steps.name ≡ L.name }
    requires steps_parts { steps.parts ≡ L.parts }
    requires steps_some { steps.parts ≡ 1 }
{
    let mut nested: Steps<K> = Steps::open(nested);
    let mut steps: Steps<L> = Steps::open(steps);
    let Plans { old, new } = plans;
    let Stated { graph, document } = read;
    let view = Watched::new(graph);
    let mut engine = Engine::open(alloc, old, view, &mut nested, &mut steps)?;
    if !begins(alloc, &mut engine, new, due.start, &mut nested, &mut steps)? {
        return Ok(false);
    }
    are_met(
        alloc,
        &mut engine,
        &document,
        due.steps,
        &mut nested,
        &mut steps,
    )
}

/// What is due of a block: how it begins, and its steps.
#[derive(Clone, Copy)]
struct Due<'a> {
    start: &'a str,
    steps: &'a str,
}

fn is_as_said(alloc: Global, row: &str) -> Result<bool, RowFault> {
    let (old, new, data, rest) = in_four(row, "\n")?;
    let (start, steps) = cut(rest, "\n")?;
    let (plans, read) = open_both(alloc, &Texts { old, new, data })?;
    let due = Due { start, steps };
    goes_through::<Brand, Brand>(alloc, plans, read, &due, Blank::new(1), Blank::new(1))
}

#[test]
fn engines_go_through_steps_as_said(rt: HostRuntime) -> Result<(), Fail> {
    all_blocks_met(rt.alloc(), ROWS, is_as_said)
}
