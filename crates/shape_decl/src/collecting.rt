//! The declarations of a graph.
ghost use Rattle.std.specs.Prelude.{◌≡◌, ◌≤◌, length, map, IfOk};
ghost use Rattle.shx_term.specs.declared.vocabulary.TheConstants.{SH_SPARQL};
ghost use Rattle.graph_view.specs.declared.key.Key.TheVariants.{Predicate};
ghost use Rattle.graph_view.specs.Key.{look};
ghost use Rattle.shape_decl.specs.Declarations.{declaration_of, declarations, told_decl};

use crate::ShapeDecl;
use crate::declaring::declare;
use crate::knowing::first_known;
use crate::shapes::find_shapes;
use graph_view::{GraphView, Reads};
use shx_term::vocabulary::SH_SPARQL;
use shx_term::{Id, Limits, Memory};
use std::alloc::Global;

/// Each shape of a graph once, in term order, with what the graph states of it. It asks the graph by
/// predicate and by subject, and takes time in proportion to the triples of shapes and to what it gives,
/// where look-ups do: a list or a path that several shapes have is read once, and copied into each. Heads
/// that stand before one tail are paid for apart: from each of them the tail is followed once more.
#[tactic(auto, unfolding(crate::specs::Declarations::declarations))]
pub fn collect<V: GraphView>(
    alloc: Global,
    graph: &V,
    limits: &Limits,
) -> Result<Vec<ShapeDecl>, Memory>
    requires { limits.now.path_depth ≤ 64 }
    ensures { IfOk result (λ decls.
        map told_decl decls.items ≡ declarations limits.now (V.graph graph.now)) }
{
    let nodes = find_shapes(alloc, graph)?;
    declare_shapes(alloc, graph, limits, &nodes)
}

/// What a graph states of some nodes, in their order. Those that [`find_shapes`] gives make what [`collect`]
/// gives.
pub fn declare_shapes<V: GraphView>(
    alloc: Global,
    graph: &V,
    limits: &Limits,
    nodes: &[Id],
) -> Result<Vec<ShapeDecl>, Memory>
    requires { limits.now.path_depth ≤ 64 }
    ensures { IfOk result (λ decls.
        map told_decl decls.items ≡ map (declaration_of limits.now (V.graph graph.now)) nodes.now) }
{
    let mut known = first_known(alloc, graph, limits)?;
    let mut decls = Vec::new(alloc);
    for node in nodes {
        decls.push(declare(alloc, graph, limits, *node, &mut known)?)?;
    }
    Ok(decls)
}

/// How many triples have the predicate `sh:sparql`.
pub fn sparql_count<V: GraphView>(alloc: Global, graph: &V) -> Result<u64, Memory>
    ensures { IfOk result (λ count.
        count ≡ length (look (V.graph graph.now).triples (Predicate SH_SPARQL))) }
{
    let triples = graph.triples_with(alloc, SH_SPARQL, &mut Reads::new(alloc))?;
    let _ = graph.len();
    Ok(triples.len() as u64)
}
