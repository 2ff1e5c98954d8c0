//! The nodes of a path, read depth first.
ghost use Rattle.std.specs.Prelude.{◌≡◌, ◌<◌, [], ◌∷◌, map, Ok, Err, IfOk, IfErr, OnOk};
ghost use Rattle.path_eval.specs.Route.{route_of};
ghost use Rattle.shape_decl.specs.declared.path_fault.PathFault.{PathFault};
ghost use Rattle.shape_decl.specs.PathReadings.{route_at};
ghost use Rattle.shape_decl.specs.inner.Kept.{AreReadingsOf};
ghost use Rattle.shape_decl.specs.inner.ToldForm.{told_form};
ghost use Rattle.shape_decl.specs.inner.Visits.{counted, row_visits, visits, Meets};

use crate::PathFault;
use crate::form::Form;
use crate::read_form::read_form;
use crate::readings::ReadLists;
use graph_view::GraphView;
use path_eval::Path;
use shx_term::Id;
use std::alloc::Global;

/// The path that a node is, where so many levels are left for it and the nodes inside it. Each node that is
/// met counts as a part, of which `limit` are allowed.
#[cycle(read)]
pub(crate) fn read_node<V: GraphView>(
    alloc: Global,
    graph: &V,
    node: Id,
    left: u32,
    limit: u32,
    parts: &mut u32,
    readings: &mut ReadLists,
) -> Result<Path, PathFault>
    requires { AreReadingsOf (V.graph graph.now) readings.old }
    ensures known { AreReadingsOf (V.graph graph.now) readings.new }
    ensures counted { OnOk result
        (counted (V.graph graph.now) limit parts.old (visits (V.graph graph.now) left node) ≡ Ok parts.new) }
    ensures path { IfOk result (λ path. route_of path ≡ route_at (V.graph graph.now) left node) }
    ensures fault { IfErr result (λ fault. (fault ≡ PathFault.Memory → ⊥)
        → counted (V.graph graph.now) limit parts.old (visits (V.graph graph.now) left node) ≡ Err fault) }
{
    let form = meet(alloc, graph, node, left, limit, parts, readings)?;
    match &form {
        Form::Predicate => Ok(Path::Pred(node)),
        Form::Sequence(nodes) => {
            let paths = read_nodes(alloc, graph, nodes, left - 1, limit, parts, readings)?;
            Ok(Path::Seq(paths))
        }
        Form::Alternative(nodes) => {
            let paths = read_nodes(alloc, graph, nodes, left - 1, limit, parts, readings)?;
            Ok(Path::Alt(paths))
        }
        Form::Inverse(inside) => {
            let path = read_inside(alloc, graph, *inside, left - 1, limit, parts, readings)?;
            Ok(Path::Inverse(path))
        }
        Form::ZeroOrMore(inside) => {
            let path = read_inside(alloc, graph, *inside, left - 1, limit, parts, readings)?;
            Ok(Path::ZeroOrMore(path))
        }
        Form::OneOrMore(inside) => {
            let path = read_inside(alloc, graph, *inside, left - 1, limit, parts, readings)?;
            Ok(Path::OneOrMore(path))
        }
        Form::ZeroOrOne(inside) => {
            let path = read_inside(alloc, graph, *inside, left - 1, limit, parts, readings)?;
            Ok(Path::ZeroOrOne(path))
        }
        Form::Formless => Err(PathFault::Broken),
    }
}

// The paths that nodes are, one after the other.
#[cycle(read)]
fn read_nodes<V: GraphView>(
    alloc: Global,
    graph: &V,
    nodes: &[Id],
    left: u32,
    limit: u32,
    parts: &mut u32,
    readings: &mut ReadLists,
) -> Result<Vec<Path>, PathFault>
    requires { AreReadingsOf (V.graph graph.now) readings.old }
    ensures known { AreReadingsOf (V.graph graph.now) readings.new }
    ensures counted { OnOk result (counted (V.graph graph.now) limit parts.old
        (row_visits (V.graph graph.now) left nodes.now) ≡ Ok parts.new) }
    ensures paths { IfOk result (λ paths.
        map route_of paths.items ≡ map (route_at (V.graph graph.now) left) nodes.now) }
    ensures fault { IfErr result (λ fault. (fault ≡ PathFault.Memory → ⊥)
        → counted (V.graph graph.now) limit parts.old (row_visits (V.graph graph.now) left nodes.now)
        ≡ Err fault) }
{
    let mut paths = Vec::new(alloc);
    for node in nodes {
        let path = read_node(alloc, graph, *node, left, limit, parts, readings)?;
        paths.push(path)?;
    }
    Ok(paths)
}

// The path that the only node inside another is.
#[cycle(read)]
fn read_inside<V: GraphView>(
    alloc: Global,
    graph: &V,
    node: Id,
    left: u32,
    limit: u32,
    parts: &mut u32,
    readings: &mut ReadLists,
) -> Result<Box<Path>, PathFault>
    requires { AreReadingsOf (V.graph graph.now) readings.old }
    ensures known { AreReadingsOf (V.graph graph.now) readings.new }
    ensures counted { OnOk result (counted (V.graph graph.now) limit parts.old
        (row_visits (V.graph graph.now) left (node ∷ [])) ≡ Ok parts.new) }
    ensures path { IfOk result (λ path. route_of path.value ≡ route_at (V.graph graph.now) left node) }
    ensures fault { IfErr result (λ fault. (fault ≡ PathFault.Memory → ⊥)
        → counted (V.graph graph.now) limit parts.old (row_visits (V.graph graph.now) left (node ∷ []))
        ≡ Err fault) }
{
    let path = read_node(alloc, graph, node, left, limit, parts, readings)?;
    Ok(Box::new(alloc, path)?)
}

// Counts a node as a part, unless it is too deep or one too many, and gives its form.
fn meet<V: GraphView>(
    alloc: Global,
    graph: &V,
    node: Id,
    left: u32,
    limit: u32,
    parts: &mut u32,
    readings: &mut ReadLists,
) -> Result<Form, PathFault>
    requires { AreReadingsOf (V.graph graph.now) readings.old }
    ensures known { AreReadingsOf (V.graph graph.now) readings.new }
    ensures level { OnOk result (0 < left) }
    ensures met { IfOk result (λ form.
        Meets (V.graph graph.now) limit parts.old parts.new left node (told_form form)) }
    ensures fault { IfErr result (λ fault. (fault ≡ PathFault.Memory → ⊥)
        → counted (V.graph graph.now) limit parts.old (visits (V.graph graph.now) left node) ≡ Err fault) }
{
    if left == 0 || *parts >= limit {
        return Err(PathFault::TooDeep);
    }
    *parts += 1;
    Ok(read_form(alloc, graph, node, readings)?)
}
