use super::asked::is_met;
use super::due::Due;
use super::names::{take_list, take_name, take_names};
use super::paths::take_reading;
use graph_view::{GraphView, ListGraph};
use row_tools::{RowFault, all_blocks_met};
use shape_decl::{ListValue, ShapeDecl, collect, find_shapes, sparql_count};
use shx_term::{Id, Limits, Pool};
use std::alloc::Global;
use std::test::Fail;

// A graph, and its shapes; how often it has sh:sparql; or its declarations, one a line: the shape; the class
// that it is an instance of, where that is sh:NodeShape or rdfs:Class; the values of each predicate, and the
// members of each list among them; and what is read as its path. An empty line stands between two rows.
const DECLARED: &str = "\
shapes | x p y =

shapes | k subClassOf m, m subClassOf PropertyShape, a type k = a

shapes | _c type NodeShape, c type NodeShape, b type NodeShape, _a type NodeShape, a type NodeShape = a b c _a _c

shapes | b node a, a path p, c and _l, _l cell d nil = a b c d

sparql | a p b = 0

sparql | a sparql b, a sparql b = 1

sparql | a sparql b, a sparql c, b sparql c = 3

sparql | a sparql b, sparql p c, a node sparql = 1

declared | x p y =

declared | a type NodeShape, a p x =
a | is NodeShape | type NodeShape

declared | k subClassOf Class, a type k, a targetNode x =
a | is Class | type k | targetNode x

declared | k subClassOf m, m subClassOf k, m subClassOf NodeShape, a type k, k type NodeShape, k type Class =
a | is NodeShape | type k
k | is NodeShape | is Class | type Class NodeShape | subClassOf m

declared | a targetNode x, b targetClass x, c targetSubjectsOf x, d targetObjectsOf x =
a | targetNode x
b | targetClass x
c | targetSubjectsOf x
d | targetObjectsOf x

declared | a severity Violation, a targetNode z, a targetNode 'x', a targetNode y, a targetNode _b, a deactivated 'true' =
a | targetNode y z _b 'x' | severity Violation | deactivated 'true'

declared | a qualifiedValueShape e, a property d, a node c, a not b, c message 'hi'@en =
a | not b | node c | property d | qualifiedValueShape e
b
c | message 'hi'
d
e

declared | a node 'b', a property 'c', a not nil =
a | not nil | node 'b' | property 'c'
nil

declared | a and _l, _l cell b _m, _m cell 'c' nil =
a | and _l, _l ( b 'c' )
b

declared | a or _l, b xone _l, _l cell _c nil =
a | or _l, _l ( _c )
b | xone _l, _l ( _c )
_c

declared | a and _l, _l cell _m nil, _m cell b nil =
a | and _l, _l ( _m )
_m | first b | rest nil

declared | a or _l, a or _k, _l cell c nil, _k cell b nil, a in _l =
a | or _k _l, _k ( b ), _l ( c ) | in _l, _l ( c )
b
c

declared | a ignoredProperties _m, a languageIn nil, _m cell p nil =
a | languageIn nil, nil ( ) | ignoredProperties _m, _m ( p )

declared | a or _l, _l cell b _m, _m cell c _l, a xone b, a in 'b' =
a | or _l, _l none | xone b, b none | in 'b', 'b' none

declared | a type PropertyShape, a path q, a path p, p cell q _b, _b cell r nil =
a | type PropertyShape | path p q | reads p

declared | _b path _c, _c inversePath r, _b maxCount '2'^^integer, a minCount '1'^^integer, a path 'p' =
a | path 'p' | minCount '1' | reads Broken
_b | path _c | maxCount '2' | reads ^r

declared | a type NodeShape, a targetNode x, b node a, c property a =
a | is NodeShape | type NodeShape | targetNode x
b | node a
c | property a
";

fn take_lists(pool: &Pool, lists: &[ListValue], due: &mut Due) {
    for list in lists {
        due.take(", ");
        take_name(pool, list.head, due);
        take_list(pool, &list.members, due);
    }
}

// The values of a predicate, and the lists among them, as they are found under it.
fn take_under(pool: &Pool, decl: &ShapeDecl, predicate: Id, due: &mut Due) {
    due.take(" | ");
    take_name(pool, predicate, due);
    take_names(pool, decl.values_of(predicate), due);
    take_lists(pool, decl.lists_of(predicate), due);
}

fn take_declaration(pool: &Pool, decl: &ShapeDecl, due: &mut Due) {
    due.take("\n");
    take_name(pool, decl.node, due);
    if decl.is_node_shape {
        due.take(" | is NodeShape");
    }
    if decl.is_class {
        due.take(" | is Class");
    }
    for declared in &decl.values {
        take_under(pool, decl, declared.predicate, due);
    }
    if let Some(reading) = &decl.path {
        due.take(" | reads");
        take_reading(pool, reading, due);
    }
}

/// Whether a graph has these shapes.
pub(super) fn are_found(alloc: Global, graph: &ListGraph, mut due: Due) -> Result<bool, RowFault> {
    let found = find_shapes(alloc, graph)?;
    take_names(graph.pool(), &found, &mut due);
    Ok(due.is_found())
}

/// Whether a graph has so many triples with sh:sparql.
pub(super) fn is_count(alloc: Global, graph: &ListGraph, mut due: Due) -> Result<bool, RowFault> {
    let count = sparql_count(alloc, graph)?;
    let count = format!(in alloc; " {count}")?;
    due.take(count.as_str());
    Ok(due.is_found())
}

/// Whether a graph has these declarations.
pub(super) fn are_declared(
    alloc: Global,
    graph: &ListGraph,
    mut due: Due,
) -> Result<bool, RowFault> {
    let decls = collect(alloc, graph, &Limits::program())?;
    for decl in &decls {
        take_declaration(graph.pool(), decl, &mut due);
    }
    Ok(due.is_found())
}

#[test]
fn declared(rt: HostRuntime) -> Result<(), Fail> {
    all_blocks_met(rt.alloc(), DECLARED, is_met)
}
