use super::asked::is_met;
use super::due::Due;
use super::graphs::number;
use super::names::take_list;
use graph_view::{GraphView, ListGraph};
use row_tools::{RowFault, all_met};
use shape_decl::read_list;
use std::alloc::Global;
use std::test::Fail;

// A node, a graph, and the members of the list that the node is, or `none`.
const LISTS: &str = "\
list nil | - = ( )
list _a | _a cell x nil = ( x )
list _a | _a cell x _b, _b cell y _c, _c cell z nil = ( x y z )
list _a | _a cell x _b, _b cell x nil = ( x x )
list _b | _a cell x _b, _b cell y nil = ( y )
list _b | _a cell x _c, _b cell y _c, _c cell z nil = ( y z )
list _a | _a cell x b, b cell y nil = ( x y )
list _a | _a cell 'x' nil = ( 'x' )
list _a | _a cell _a nil = ( _a )
list _a | _a cell _b nil, _b cell x nil = ( _b )
list _a | _a cell _b _b, _b cell x nil = ( _b x )
list _a | _a cell x nil, _a p y, nil p z = ( x )
list _a | - = none
list 'x' | - = none
list _a | _a cell x nil, _a first y = none
list _a | _a cell x nil, _a rest _b = none
list _a | _a cell x _b, _b cell y nil, _b first z = none
list _a | _a cell x _b, _b rest nil = none
list _a | nil first x, _a cell y nil = none
list _a | _a cell x _b, _b cell x _c, _c cell x _b = none
";

/// Whether these are the members of the list that a node is.
pub(super) fn is_list(
    alloc: Global,
    graph: &mut ListGraph,
    head: &str,
    mut due: Due,
) -> Result<bool, RowFault> {
    let head = number(alloc, graph, head)?;
    let members = read_list(alloc, &*graph, head)?;
    take_list(graph.pool(), &members, &mut due);
    Ok(due.is_found())
}

#[test]
fn lists(rt: HostRuntime) -> Result<(), Fail> {
    all_met(rt.alloc(), LISTS, is_met)
}
