//! Whether a shape of a plan and one of another are declared the same, but for the shapes that they name.
ghost use Rattle.std.specs.Prelude.{◌≡◌, ◌↔◌, ◌<◌, ◌++◌, IsTrue, Some, length, map, slice_get};
ghost use Rattle.std.specs.Option.{option_map};
ghost use Rattle.path_eval.specs.Route.{route_of};
ghost use Rattle.shape_eval.specs.Content.{demand_of, parameter_told};
ghost use Rattle.shape_eval.specs.Plan.{nodes_of};
ghost use Rattle.shape_eval.specs.Planned.{plan_of};
ghost use Rattle.plan_swap.specs.Alike.{IsSameShape};
ghost use Rattle.plan_swap.specs.inner.Stated.{stated_content};

use crate::stated::{Stated, stated_by};
use comp_core::ShapeNo;
use path_eval::{LaidPath, equal_paths_have_one_route};
use shape_eval::{Constraint, Plan, PlanShape};
use shx_term::Id;

/// Whether they have the same node, path, severity, messages and demands, and are deactivated or not.
pub(crate) fn is_same_shape(old: &Plan, before: &PlanShape, new: &Plan, after: &PlanShape) -> bool
    ensures { IsTrue result ↔ IsSameShape (nodes_of (plan_of old.now).shapes)
        (nodes_of (plan_of new.now).shapes) before.now after.now }
{
    before.node == after.node
        && is_same_path(&before.path, &after.path)
        && before.severity == after.severity
        && before.messages == after.messages
        && before.deactivated == after.deactivated
        && have_same_demands(old, &before.constraints, new, &after.constraints)
}

// Whether there is no path in both, or one route.
fn is_same_path(p: &Option<LaidPath>, q: &Option<LaidPath>) -> bool
    ensures { IsTrue result ↔ option_map route_of p.now ≡ option_map route_of q.now }
{
    equal_paths_have_one_route();
    match (p, q) {
        (Some(p), Some(q)) => p.path() == q.path(),
        (None, None) => true,
        _ => false,
    }
}

fn have_same_demands(old: &Plan, before: &[Constraint], new: &Plan, after: &[Constraint]) -> bool
    ensures { IsTrue result ↔ map (demand_of (nodes_of (plan_of old.now).shapes)) before.now
        ≡ map (demand_of (nodes_of (plan_of new.now).shapes)) after.now }
{
    if before.len() != after.len() {
        return false;
    }
    for i in 0..before.len() {
        if !is_same_demand(old, &before[i], new, &after[i]) {
            return false;
        }
    }
    true
}

fn is_same_demand(old: &Plan, c: &Constraint, new: &Plan, d: &Constraint) -> bool
    ensures { IsTrue result ↔ demand_of (nodes_of (plan_of old.now).shapes) c.now
        ≡ demand_of (nodes_of (plan_of new.now).shapes) d.now }
{
    c.kind() == d.kind()
        && parameter_told(c) == parameter_told(d)
        && is_same_content(old, &stated_by(c), new, &stated_by(d))
}

// The parameter of a constraint, where it has no list.
fn parameter_told(c: &Constraint) -> Option<Id>
    ensures { result ≡ parameter_told c.now }
{
    match c {
        Constraint::LanguageIn(_) | Constraint::In(_) => None,
        Constraint::And(_) | Constraint::Or(_) | Constraint::Xone(_) => None,
        _ => Some(c.parameter()),
    }
}

fn is_same_content(old: &Plan, c: &Stated<'_>, new: &Plan, d: &Stated<'_>) -> bool
    ensures { IsTrue result ↔ stated_content (nodes_of (plan_of old.now).shapes) c.now
        ≡ stated_content (nodes_of (plan_of new.now).shapes) d.now }
{
    match (c, d) {
        (Stated::Nothing, Stated::Nothing) => true,
        (Stated::Matches(text, flags), Stated::Matches(t, f)) => text == t && flags == f,
        (Stated::Members(members), Stated::Members(m)) => members == m,
        (Stated::Names(first, then), Stated::Names(f, t)) => {
            are_same_nodes(old, first, then, new, f, t)
        }
        (Stated::Permits(permitted, ignored), Stated::Permits(p, i)) => permitted == p
            && ignored == i,
        _ => false,
    }
}

// Whether shapes of a plan, these and then those, are of the same nodes in turn as shapes of another.
fn are_same_nodes(
    old: &Plan,
    first: &[ShapeNo],
    then: &[ShapeNo],
    new: &Plan,
    f: &[ShapeNo],
    t: &[ShapeNo],
) -> bool
    ensures { IsTrue result ↔ map (slice_get (nodes_of (plan_of old.now).shapes)) (first.now ++ then.now)
        ≡ map (slice_get (nodes_of (plan_of new.now).shapes)) (f.now ++ t.now) }
{
    let count = first.len() + then.len();
    if count != f.len() + t.len() {
        return false;
    }
    for i in 0..count {
        if !is_same_node(old, nth(first, then, i), new, nth(f, t, i)) {
            return false;
        }
    }
    true
}

// A shape of these and then those, by its place.
fn nth(first: &[ShapeNo], then: &[ShapeNo], i: usize) -> ShapeNo
    requires { i < length (first.now ++ then.now) }
    ensures { slice_get (first.now ++ then.now) i ≡ Some result }
{
    if i < first.len() {
        first[i]
    } else {
        then[i - first.len()]
    }
}

fn is_same_node(old: &Plan, m: ShapeNo, new: &Plan, n: ShapeNo) -> bool
    ensures { IsTrue result ↔ slice_get (nodes_of (plan_of old.now).shapes) m
        ≡ slice_get (nodes_of (plan_of new.now).shapes) n }
{
    node_of(old, m) == node_of(new, n)
}

// The node of the shape of a number, if there is one.
fn node_of(plan: &Plan, n: ShapeNo) -> Option<Id>
    ensures { result ≡ slice_get (nodes_of (plan_of plan.now).shapes) n }
{
    if n < plan.len() {
        Some(plan.shape(n).node)
    } else {
        None
    }
}
