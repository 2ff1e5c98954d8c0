//! Makes a small graph and prints to which nodes a property path leads, with `path_eval`: from the room to
//! all that is part of it, in however many steps (`(^part_of)+`). Change the triples, the path or the start:
//! `Path` has the seven forms of SHACL, and a `LaidPath` can be followed from many nodes.
#![tactic(auto)]

ghost use Rattle.std.specs.Prelude.{◌<◌, ◌≤◌, length, All, IfOk};
ghost use Rattle.graph_view.specs.Graph.{HasTerms, IsKnownTriple};

use anyhow::Result;
use graph_view::{GraphEdit, GraphView, ListGraph, Notes, Unnoted};
use path_eval::{LaidPath, Path};
use shx_term::{Id, IriText, Memory, Pool, PoolFault, Term, TermKeys, Triple, spell};
use std::alloc::Global;
use std::io;
use std::io::Write;

fn main(rt: HostRuntime) -> Result<()> {
    let alloc = rt.alloc();
    let pool = Pool::with_vocabulary(alloc, 1_000, TermKeys::drawn(&rt)?)?;
    let mut graph = ListGraph::new(alloc, pool, 1_000);
    for (part, whole) in [("lamp", "desk"), ("desk", "room"), ("room", "house")] {
        state(alloc, &mut graph, part, "part_of", whole)?;
    }
    let part_of = enter(alloc, &mut graph, "part_of")?;
    let room = enter(alloc, &mut graph, "room")?;
    let path = parts_along(alloc, part_of)?;
    let nodes = path.values(alloc, &graph, room, &mut Unnoted::new(alloc))?;
    Ok(io::writer(&rt).write_all(&lines_of(alloc, graph.pool(), &nodes)?)?)
}

// States a triple of three IRIs.
fn state(alloc: Global, graph: &mut ListGraph, s: &str, p: &str, o: &str) -> Result<()> {
    let s = enter(alloc, graph, s)?;
    let p = enter(alloc, graph, p)?;
    let o = enter(alloc, graph, o)?;
    graph.insert(Triple { s, p, o })?;
    Ok(())
}

// The number of an IRI, which is entered where the graph has it not.
fn enter(alloc: Global, graph: &mut ListGraph, name: &str) -> Result<Id, PoolFault>
    ensures known { IfOk result (λ id. id < length graph.new.pool.terms) }
    ensures grows { length graph.old.pool.terms ≤ length graph.new.pool.terms }
{
    let iri = format!(in alloc; "http://example.org/{name}")?;
    graph.enter(&Term::Iri(IriText::new(iri)))
}

// `(^p)+`
fn parts_along(alloc: Global, p: Id) -> Result<LaidPath, Memory> {
    let backwards = Path::Inverse(Box::new(alloc, Path::Pred(p))?);
    LaidPath::new(alloc, Path::OneOrMore(Box::new(alloc, backwards)?))
}

// The terms of numbers, a line each.
fn lines_of(alloc: Global, pool: &Pool, ids: &[Id]) -> Result<Vec<u8>, Memory>
    requires { All (λ id. id < length pool.now.terms) ids.now }
{
    let mut lines = Vec::new(alloc);
    for id in ids {
        spell(pool.term(*id), &mut lines)?;
        lines.push(b'\n')?;
    }
    Ok(lines)
}
