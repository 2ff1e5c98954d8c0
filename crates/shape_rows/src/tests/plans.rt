use super::asked::is_met;
use super::due::Due;
use super::faults::take_broken;
use super::hosts::NoPatterns;
use super::names::{take_name, take_names};
use graph_view::{GraphView, ListGraph};
use row_tools::{RowFault, all_blocks_met};
use shape_check::{CheckFault, check_shapes};
use shape_compile::{CompileFault, compile};
use shape_decl::ShapeDecl;
use shape_eval::{Constraint, Plan};
use shx_term::{Limits, Pool};
use std::alloc::Global;
use std::test::Fail;

// A graph, and its plan, one shape a line: the shape, whether it is off, its severity, and of each constraint
// the parameter with the shapes that it names. Or what stands in the way of a plan: a broken rule, or the
// shapes of a cycle. An empty line stands between two rows.
const PLANS: &str = "\
plan | a targetNode x, a path p, a minCount '1'^^integer =
a Violation | '1'

plan | a hasValue x, a class z, a class y, a nodeKind IRI, a severity v =
a v | y | z | IRI | x

plan | a path p, a uniqueLang 'false'^^boolean, a closed '1'^^boolean, a deactivated 'true'^^boolean =
a off Violation | '1'

plan | a flags 'i', a qualifiedMinCount '1'^^integer =
a Violation

plan | a property b, a property c, b path p, b node d, c path q, d not e =
a Violation | b b | c c
b Violation | d d
c Violation
d Violation | e e
e Violation

plan | a xone _l, _l cell b _m, _m cell b nil, a and _k, _k cell c nil, a closed 'true'^^boolean =
a Violation | _k c | _l b b | 'true'
b Violation
c Violation

plan | a property b, a property c, b path p, b qualifiedValueShape d, b qualifiedMinCount '1'^^integer, \
b qualifiedValueShapesDisjoint 'true'^^boolean, c path p, c qualifiedValueShape e, c qualifiedMaxCount '2'^^integer =
a Violation | b b | c c
b Violation | '1' d e
c Violation | '2' e
d Violation
e Violation

plan | a property b, a property c, b path p, b qualifiedValueShape d, b qualifiedMinCount '1'^^integer, \
b qualifiedValueShapesDisjoint 'true'^^boolean, c path p, c qualifiedValueShape d, c qualifiedMaxCount '2'^^integer =
a Violation | b b | c c
b Violation | '1' d
c Violation | '2' d
d Violation

plan | a not b, b not a = Recursive a b

plan | d not b, b node c, c node b = Recursive b c

plan | a or _l, _l cell b _m, _m cell a nil = Recursive a

plan | a property b, a property c, b path p, b qualifiedValueShape d, b qualifiedMinCount '1'^^integer, \
b qualifiedValueShapesDisjoint 'true'^^boolean, c path p, c qualifiedValueShape e, e property b = Recursive b e

plan | a pattern '(', b not b = Recursive b

plan | a in _l, _l cell b _m, _m cell c _l, a pattern '(' = BadList a in _l

plan | a node b, b path p = NotANodeShape a node b
";

// The shapes that a constraint names, by number.
fn named(constraint: &Constraint) -> (Option<u32>, &[u32]) {
    match constraint {
        Constraint::Not(c) => (Some(c.shape), &[]),
        Constraint::Node(c) => (Some(c.shape), &[]),
        Constraint::Property(c) => (Some(c.shape), &[]),
        Constraint::And(c) => (None, &c.shapes),
        Constraint::Or(c) => (None, &c.shapes),
        Constraint::Xone(c) => (None, &c.shapes),
        Constraint::QualifiedMinCount(c) => (Some(c.shape), &c.siblings),
        Constraint::QualifiedMaxCount(c) => (Some(c.shape), &c.siblings),
        _ => (None, &[]),
    }
}

// The node of a shape, which has to stand below this number.
fn take_named(plan: &Plan, pool: &Pool, below: u32, number: u32, due: &mut Due) {
    if number >= below || number >= plan.len() {
        return due.take(" none below");
    }
    take_names(pool, &[plan.shape(number).node], due);
}

fn take_constraint(plan: &Plan, pool: &Pool, below: u32, constraint: &Constraint, due: &mut Due) {
    due.take(" | ");
    take_name(pool, constraint.parameter(), due);
    let (first, others) = named(constraint);
    if let Some(number) = first {
        take_named(plan, pool, below, number, due);
    }
    for number in others {
        take_named(plan, pool, below, *number, due);
    }
}

fn take_shape(plan: &Plan, pool: &Pool, number: u32, due: &mut Due) {
    if number >= plan.len() {
        return due.take("no shape");
    }
    let shape = plan.shape(number);
    due.take("\n");
    take_name(pool, shape.node, due);
    if shape.deactivated {
        due.take(" off");
    }
    take_names(pool, &[shape.severity], due);
    for constraint in &shape.constraints {
        take_constraint(plan, pool, number, constraint, due);
    }
}

// The shapes of a plan, one a line, in the order of their declarations.
fn take_plan(plan: &Plan, pool: &Pool, decls: &[ShapeDecl], due: &mut Due) {
    for decl in decls {
        if let Some(number) = plan.number(decl.node) {
            take_shape(plan, pool, number, due);
        }
    }
}

fn is_made(
    pool: &Pool,
    decls: &[ShapeDecl],
    made: &Result<Plan, CompileFault>,
    mut due: Due,
) -> Result<bool, RowFault> {
    match made {
        Ok(plan) => take_plan(plan, pool, decls, &mut due),
        Err(CompileFault::Recursive { cycle }) => {
            due.take(" Recursive");
            take_names(pool, cycle, &mut due);
        }
        Err(CompileFault::Memory) => return Err(RowFault::Memory),
        Err(_) => return Err(RowFault::Unread),
    }
    Ok(due.is_found())
}

/// Whether a graph comes to this plan, or to what stands in its way.
pub(super) fn is_plan(alloc: Global, graph: &ListGraph, mut due: Due) -> Result<bool, RowFault> {
    let limits = Limits::program();
    let mut host = NoPatterns {};
    match check_shapes(alloc, graph, &limits) {
        Ok(decls) => {
            let made = compile(alloc, &decls, graph.pool(), &limits, &mut host);
            is_made(graph.pool(), &decls, &made, due)
        }
        Err(CheckFault::Shape(fault)) => {
            take_broken(graph.pool(), &fault, &mut due);
            Ok(due.is_found())
        }
        Err(CheckFault::Memory) => Err(RowFault::Memory),
    }
}

#[test]
fn plans(rt: HostRuntime) -> Result<(), Fail> {
    all_blocks_met(rt.alloc(), PLANS, is_met)
}
