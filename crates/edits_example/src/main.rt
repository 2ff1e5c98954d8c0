//! Keeps a report current with `edit_engine`: opens an engine with the plan of a text of shapes and a graph
//! without triples, makes edits, and prints of each how many pairs of a shape and a node it evaluated, and
//! how many results there are then. Change `SHAPES` and the edits; `Engine::rows` has the results themselves.
#![tactic(auto)]

ghost use Rattle.std.specs.Prelude.{◌≡◌, IfOk};
ghost use Rattle.shx_term.specs.Edit.{IsValidEdit};
ghost use Rattle.shx_term.specs.ValidTriples.{IsIri};

use anyhow::{Result, bail, ensure};
use edit_engine::{Edit, Engine, plans_target_shapes_once};
use graph_view::ListGraph;
use iri_resolve::is_absolute;
use shape_text::judge;
use shx_outside::RegexHost;
use shx_term::{IriText, Limits, Memory, Pool, Steps, Term, TermKeys, TermTriple};
use std::alloc::Global;
use std::marker::Brand;
use std::sync::ledger::{Blank, Ledger};

const SHAPES: &str = "\
@prefix sh: <http://www.w3.org/ns/shacl#> .
<Owned> sh:targetNode <paint> ; sh:path <owner> ; sh:minCount 1 ; sh:maxCount 1 .
";

fn main(rt: HostRuntime) -> Result<()> {
    keep_current::<Brand, Brand>(&rt, Blank::new(1), Blank::new(1))
}

// Evaluations are counted in proofs alone, over ledgers that the call chooses.
fn keep_current<L: Ledger, M: Ledger>(rt: &HostRuntime, pairs: Blank, nested: Blank) -> Result<()>
    requires pairs_name { pairs.name ≡ L.name }
    requires pairs_parts { pairs.parts ≡ L.parts }
    requires pairs_some { pairs.parts ≡ 1 }
    requires nested_name { nested.name ≡ M.name }
    requires nested_parts { nested.parts ≡ M.parts }
    requires nested_some { nested.parts ≡ 1 }
{
    let alloc = rt.alloc();
    let (mut pairs, mut nested): (Steps<L>, Steps<M>) = (Steps::open(pairs), Steps::open(nested));
    let limits = Limits::program();
    let pool = Pool::with_vocabulary(alloc, limits.terms, TermKeys::drawn(rt)?)?;
    let base = IriText::from_str(alloc, "http://example.org/")?;
    ensure!(is_absolute(base.as_str()), "the base is not absolute");
    let text = String::from_str(alloc, SHAPES)?.into_bytes();
    let Ok(shapes) = judge(alloc, pool, text, &base, &limits, &mut RegexHost::new()) else {
        bail!("the shapes are refused");
    };
    // So the plan may be asked of a graph over the same terms.
    plans_target_shapes_once();
    let graph = ListGraph::new(alloc, shapes.pool, limits.triples);
    let mut engine = Engine::open(alloc, shapes.plan, graph, &mut nested, &mut pairs)?;
    println!(rt;
        "pairs {}, results {}",
        engine.pair_count(),
        engine.result_count()
    )?;
    for (s, p, o) in [
        ("paint", "owner", "ann"),
        ("ann", "knows", "ben"),
        ("paint", "owner", "ben"),
    ] {
        let edit = insertion(alloc, s, p, o)?;
        let change = engine.apply(alloc, &edit, &mut nested, &mut pairs)?;
        let results = engine.result_count();
        println!(rt;
            "{s} {p} {o}: evaluated {}, results {results}",
            change.evaluated
        )?;
    }
    Ok(())
}

// The edit that states a triple of three IRIs.
fn insertion(alloc: Global, s: &str, p: &str, o: &str) -> Result<Edit, Memory>
    ensures { IfOk result IsValidEdit }
{
    let (s, p, o) = (iri(alloc, s)?, iri(alloc, p)?, iri(alloc, o)?);
    Ok(Edit::Insert(TermTriple { s, p, o }))
}

fn iri(alloc: Global, name: &str) -> Result<Term, Memory>
    ensures { IfOk result IsIri }
{
    let iri = format!(in alloc; "http://example.org/{name}")?;
    Ok(Term::Iri(IriText::new(iri)))
}
