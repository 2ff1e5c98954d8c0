use super::asked::is_met;
use super::due::Due;
use super::graphs::limits_of;
use super::names::take_names;
use graph_view::{GraphView, ListGraph};
use row_tools::{RowFault, all_met};
use shape_check::{CheckFault, ShapeFault, check};
use shape_decl::collect;
use shx_term::Pool;
use shx_term::fault_codes::code_name;
use std::alloc::Global;
use std::test::Fail;

// Limits, a graph, and its first fault: the rule, the shape, the predicate and the term; or `accepted`.
const FAULTS: &str = "\
fault 9 64 4096 | a and _l, _l cell b _m, _m cell c nil = accepted
fault 9 64 4096 | a and _l, _l cell b _m, _m cell c _l = BadList a and _l
fault 9 64 4096 | a datatype y, a datatype x = TooManyValues a datatype y
fault 9 64 4096 | a languageIn _l, _l cell 'x' _m, _m cell y nil = WrongKind a languageIn y
fault 9 64 4096 | a lessThan p = NotOnNodeShape a lessThan p
fault 9 64 4096 | a class c, a path 'x' = BadPath a path 'x'
fault 9 64 4096 | a property b = NotAPropertyShape a property b
fault 9 64 4096 | k subClassOf NodeShape, a type k, a path p = NotANodeShape a path p
fault 9 64 4096 | a flags 'q' = BadFlags a flags 'q'
fault 9 64 4096 | a class c, a path _p, _p inversePath _p = PathTooDeep a path _p
fault 9 64 4096 | b class 'x', b in y, a flags 'q' = BadFlags a flags 'q'
fault 9 64 4096 | a flags 'q', a class 'x', a in y = BadList a in y
fault 2 64 4096 | a class c, b class c = accepted
fault 1 64 4096 | b class c, a class c = TooManyShapes b
fault 1 64 4096 | _a class c, b class c = TooManyShapes _a
fault 0 64 4096 | a class c = TooManyShapes a
fault 0 64 4096 | a in 'x', b in 'x' = TooManyShapes a
fault 0 64 4096 | a p b = accepted
fault 0 64 4096 | a path 'x' = accepted
fault 1 64 4096 | a in 'x', b class c = TooManyShapes b
fault 1 64 4096 | a class c, b in 'x' = TooManyShapes b
fault 2 64 4096 | a in 'x', b class c = BadList a in 'x'
fault 2 64 4096 | a and _l, _l cell b _m, _m cell c nil = TooManyShapes c
fault 1 64 4096 | b not a = TooManyShapes b
fault 2 64 4096 | a not b, a node b, a and _l, _l cell b _m, _m cell b nil, b type NodeShape = accepted
fault 1 64 4096 | b in 'x', a path 'x' = BadList b in 'x'
fault 1 64 4096 | a in _l, _l cell b nil, a class c, b p _d = accepted
fault 9 0 4096 | a class c = accepted
fault 9 0 4096 | a class c, a path p = PathTooDeep a path p
fault 9 1 4096 | a class c, a path p = accepted
fault 9 1 4096 | a class c, a path _b, _b inversePath 'x' = PathTooDeep a path _b
fault 9 2 4096 | a class c, a path _b, _b inversePath 'x' = BadPath a path _b
fault 9 0 4096 | a class c, a path q, a path p = TooManyValues a path q
fault 9 0 4096 | a class c, a path p, b in 'x' = PathTooDeep a path p
fault 9 64 1 | a class c, a path _b, _b inversePath p = PathTooDeep a path _b
fault 9 64 2 | a class c, a path _b, _b inversePath p = accepted
fault 9 64 2 | a class c, a path _l, _l cell p _m, _m cell q nil, a property b, b path p = PathTooDeep a path _l
fault 9 64 1 | a class c, a path p, a property b, b path p, a property _d, _d path q = accepted
";

/// Takes a broken rule, with a blank before it.
pub(super) fn take_broken(pool: &Pool, fault: &ShapeFault, due: &mut Due) {
    due.take(" ");
    due.take(code_name(fault.code));
    take_names(pool, &[fault.shape], due);
    if let (Some(predicate), Some(term)) = (fault.predicate, fault.term) {
        take_names(pool, &[predicate, term], due);
    }
}

/// Whether this is the first fault of a graph within limits: `9 64 4096`.
pub(super) fn is_fault(
    alloc: Global,
    graph: &ListGraph,
    numbers: &str,
    mut due: Due,
) -> Result<bool, RowFault> {
    let limits = limits_of(numbers)?;
    let decls = collect(alloc, graph, &limits)?;
    match check(alloc, &decls, graph.pool(), &limits) {
        Ok(()) => due.take(" accepted"),
        Err(CheckFault::Shape(fault)) => take_broken(graph.pool(), &fault, &mut due),
        Err(CheckFault::Memory) => return Err(RowFault::Memory),
    }
    Ok(due.is_found())
}

#[test]
fn faults(rt: HostRuntime) -> Result<(), Fail> {
    all_met(rt.alloc(), FAULTS, is_met)
}
