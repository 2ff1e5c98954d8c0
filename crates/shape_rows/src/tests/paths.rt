use super::asked::is_met;
use super::due::Due;
use super::graphs::{limits_of, number};
use super::names::take_name;
use graph_view::{GraphView, ListGraph};
use path_eval::Path;
use row_tools::{RowFault, all_met, cut};
use shape_decl::{PathReading, read_path};
use shx_term::Pool;
use std::alloc::Global;
use std::test::Fail;

// A node, limits, a graph, and the path that the node is, or why none is read.
const PATHS: &str = "\
path nil 9 64 4096 | - = nil
path p 9 64 4096 | p cell q _b, _b cell r nil = p
path _a 9 64 4096 | _a cell _x _b, _b cell _y nil, _x inversePath p, _y zeroOrMorePath q = (^p/*q)
path _a 9 64 4096 | _a alternativePath b, b cell p _c, _c cell _x nil, _x oneOrMorePath q = (p|+q)
path _a 9 64 4096 | _a inversePath _b, _b zeroOrOnePath _c, _c cell p _d, _d cell q nil = ^?(p/q)
path _a 9 64 4096 | _a inversePath p, _a o q = Broken
path _a 9 64 4096 | _a inversePath _a = TooDeep
path p 9 1 1 | - = p
path p 9 0 1 | - = TooDeep
path p 9 1 0 | - = TooDeep
path 'x' 9 1 1 | - = Broken
path 'x' 9 1 0 | - = TooDeep
path 'x' 9 0 1 | - = TooDeep
path _a 9 1 0 | _a o p = TooDeep
path _a 9 2 2 | _a inversePath p = ^p
path _a 9 1 2 | _a inversePath p = TooDeep
path _a 9 2 1 | _a inversePath p = TooDeep
path _a 9 2 2 | _a inversePath 'x' = Broken
path _a 9 1 2 | _a inversePath 'x' = TooDeep
path _a 9 2 1 | _a inversePath 'x' = TooDeep
path _a 9 2 9 | _a inversePath _b, _b inversePath 'x' = TooDeep
path _a 9 2 9 | _a inversePath _b, _b inversePath 'x', _b o p = Broken
path _a 9 1 9 | _a zeroOrMorePath 'x' = TooDeep
path _a 9 2 9 | _a oneOrMorePath _b, _b zeroOrOnePath p = TooDeep
path _a 9 3 9 | _a oneOrMorePath _b, _b zeroOrOnePath p = +?p
path _a 9 2 3 | _a cell p _b, _b cell q nil = (p/q)
path _a 9 1 3 | _a cell p _b, _b cell q nil = TooDeep
path _a 9 2 2 | _a cell p _b, _b cell q nil = TooDeep
path _a 9 2 4 | _a cell p _b, _b cell q _c, _c cell p nil = (p/q/p)
path _a 9 2 3 | _a cell p _b, _b cell q _c, _c cell p nil = TooDeep
path _a 9 2 3 | _a alternativePath _b, _b cell p _c, _c cell q nil = (p|q)
path _a 9 1 3 | _a alternativePath _b, _b cell p _c, _c cell q nil = TooDeep
path _a 9 2 2 | _a alternativePath _b, _b cell p _c, _c cell q nil = TooDeep
path _a 9 3 5 | _a cell _x _b, _b cell p nil, _x cell q _y, _y cell r nil = ((q/r)/p)
path _a 9 3 4 | _a cell _x _b, _b cell p nil, _x cell q _y, _y cell r nil = TooDeep
path _a 9 2 5 | _a cell _x _b, _b cell p nil, _x cell q _y, _y cell r nil = TooDeep
path _a 9 3 5 | _a cell _x _b, _b cell _x nil, _x inversePath p = (^p/^p)
path _a 9 3 4 | _a cell _x _b, _b cell _x nil, _x inversePath p = TooDeep
path _a 9 9 7 | _a alternativePath _l, _l cell _b _m, _m cell _b nil, _b alternativePath _k, _k cell p _n, \
_n cell q nil = ((p|q)|(p|q))
path _a 9 9 6 | _a alternativePath _l, _l cell _b _m, _m cell _b nil, _b alternativePath _k, _k cell p _n, \
_n cell q nil = TooDeep
path _a 9 2 9 | _a cell 'x' _b, _b cell _x nil, _x inversePath p = Broken
path _a 9 2 9 | _a cell _x _b, _b cell 'x' nil, _x inversePath p = TooDeep
path _a 9 9 3 | _a cell p _b, _b cell 'x' nil = Broken
path _a 9 9 2 | _a cell p _b, _b cell 'x' nil = TooDeep
path _a 9 1 1 | _a cell p nil = Broken
path _a 9 1 0 | _a cell p nil = TooDeep
";

// A path as a text: `(p/q)`, `(p|q)`, and `^p`, `*p`, `+p`, `?p` with the mark in front.
#[cycle(take)]
fn take(pool: &Pool, path: &Path, due: &mut Due) {
    match path {
        Path::Pred(p) => take_name(pool, *p, due),
        Path::Seq(parts) => take_all(pool, parts, "/", due),
        Path::Alt(members) => take_all(pool, members, "|", due),
        Path::Inverse(inner) => take_marked(pool, "^", inner, due),
        Path::ZeroOrMore(inner) => take_marked(pool, "*", inner, due),
        Path::OneOrMore(inner) => take_marked(pool, "+", inner, due),
        Path::ZeroOrOne(inner) => take_marked(pool, "?", inner, due),
    }
}

#[cycle(take)]
fn take_marked(pool: &Pool, mark: &str, inner: &Path, due: &mut Due) {
    due.take(mark);
    take(pool, inner, due);
}

#[cycle(take)]
fn take_all(pool: &Pool, parts: &[Path], mark: &str, due: &mut Due) {
    due.take("(");
    let mut between = false;
    for part in parts {
        if between {
            due.take(mark);
        }
        take(pool, part, due);
        between = true;
    }
    due.take(")");
}

/// Takes the path that was read, or why there is none, with a blank before it.
pub(super) fn take_reading(pool: &Pool, reading: &PathReading, due: &mut Due) {
    due.take(" ");
    match reading {
        PathReading::Path(path) => take(pool, path.path(), due),
        PathReading::Broken => due.take("Broken"),
        PathReading::TooDeep => due.take("TooDeep"),
    }
}

/// Whether this is read of a node within limits: `_a 9 64 4096`.
pub(super) fn is_path(
    alloc: Global,
    graph: &mut ListGraph,
    asked: &str,
    mut due: Due,
) -> Result<bool, RowFault> {
    let (head, numbers) = cut(asked, " ")?;
    let limits = limits_of(numbers)?;
    let head = number(alloc, graph, head)?;
    let reading = read_path(alloc, &*graph, head, &limits)?;
    take_reading(graph.pool(), &reading, &mut due);
    Ok(due.is_found())
}

#[test]
fn paths(rt: HostRuntime) -> Result<(), Fail> {
    all_met(rt.alloc(), PATHS, is_met)
}
