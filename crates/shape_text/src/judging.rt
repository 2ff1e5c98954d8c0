//! From the shapes text to a plan of its shapes.
ghost use Rattle.std.specs.Prelude.{◌≡◌, ◌≤◌, Some, length, IfErr, IfOk};
ghost use Rattle.iri_resolve.specs.Resolution.{IsAbsolute};
ghost use Rattle.shx_outside.specs.Told.{StaysAdmitted};
ghost use Rattle.shx_term.specs.Limits.{AreUsable};
ghost use Rattle.shx_term.specs.Vocabulary.{vocabulary};
ghost use Rattle.graph_view.specs.ListGraph.{plain_graph};
ghost use Rattle.shape_decl.specs.Declarations.{declarations};
ghost use Rattle.shape_compile.specs.Patterns.{AreAdmitted};
ghost use Rattle.shape_eval.specs.Planned.{plan_of};
ghost use Rattle.shape_text.specs.ShapesReadings.{PatternsAreAdmitted};
ghost use Rattle.shape_text.specs.Judging.{Accepts, IsUnplanned, PlansAs, RefusesShapes};
ghost use Rattle.shape_text.specs.Refusal.{IsQuiet};
ghost use Rattle.shape_text.specs.Unopened.{IsStill};
ghost use Rattle.shape_text.specs.Turtle.{HasNoWide};

use crate::obstacle::{check_refusal, compile_refusal};
use crate::refusal::Refusal;
use crate::turtle::read_turtle;
use crate::unopened::Unopened;
use graph_view::GraphView;
use shape_check::check_shapes;
use shape_compile::compile;
use shape_decl::sparql_count;
use shape_eval::Plan;
use shx_outside::PatternHost;
use shx_term::{IriText, Limits, Pool, Scope};
use std::alloc::Global;
use std::mem;
use triple_store::Store;

/// The shapes of a text that are accepted.
#[derive(Drop)]
pub struct Accepted {
    /// The terms that are then held.
    pub pool: Pool,
    pub plan: Plan,
    /// How many triples with sh:sparql were passed over.
    pub passed_over: u64,
}

/// The plan of the shapes of a text, or why there is none.
pub fn judge<P: PatternHost>(
    alloc: Global,
    pool: Pool,
    text: Vec<u8>,
    base: &IriText,
    limits: &Limits,
    patterns: &mut P,
) -> Result<Accepted, Unopened>
    requires absolute { IsAbsolute base.now }
    requires usable { AreUsable limits.now }
    requires within { length text.items ≤ limits.now.text }
    requires fresh { pool.terms ≡ vocabulary }
    requires limit { pool.limit ≡ limits.now.terms }
    requires admitted { PatternsAreAdmitted limits.now base.now (Some text.items) (P.admits patterns.old) }
    ensures accepts { IfOk result
        (Accepts limits.now base.now text.items (P.state patterns.old) (P.state patterns.new)) }
    ensures refused { IfErr result
        (RefusesShapes limits.now base.now text.items (P.state patterns.old) (P.state patterns.new)) }
    ensures limit { IfOk result (λ accepted. accepted.pool.limit ≡ limits.now.terms) }
    ensures no_wide { IfOk result (λ accepted. HasNoWide accepted.pool.terms) }
    ensures cut { IfErr result IsStill }
    ensures admits { StaysAdmitted (P.admits patterns.old) (P.admits patterns.new) }
{
    let mut pool = pool;
    let mut document = match read_turtle(alloc, text, base, Scope::Shapes, limits, &mut pool) {
        Ok(document) => document,
        Err(refusal) => return Err(Unopened::of(refusal, pool)),
    };
    let triples = mem::replace(&mut document.triples, Vec::new(alloc));
    let graph = Store::from_triples(alloc, pool, triples, limits.triples)?;
    let passed_over = sparql_count(alloc, &graph)?;
    // Its triples are distinct.
    let _ = graph.len();
    match plan_shapes(alloc, &graph, limits, patterns) {
        Ok(plan) => Ok(Accepted {
            pool: graph.into_pool(),
            plan,
            passed_over,
        }),
        Err(refusal) => Err(Unopened::of(refusal, graph.into_pool())),
    }
}

/// The plan of the shapes of a graph, or why there is none.
pub fn plan_shapes<V: GraphView, P: PatternHost>(
    alloc: Global,
    graph: &V,
    limits: &Limits,
    patterns: &mut P,
) -> Result<Plan, Refusal>
    requires usable { AreUsable limits.now }
    requires admitted { AreAdmitted (P.admits patterns.old) (V.graph graph.now).terms
        (declarations limits.now (V.graph graph.now)) }
    ensures plan { IfOk result (λ plan. PlansAs limits.now (V.graph graph.now)
        (P.state patterns.old) (P.state patterns.new) (plan_of plan)) }
    ensures refused { IfErr result (IsUnplanned limits.now (V.graph graph.now)
        (P.state patterns.old) (P.state patterns.new)) }
    ensures cut { IfErr result IsQuiet }
    ensures admits { StaysAdmitted (P.admits patterns.old) (P.admits patterns.new) }
{
    let decls = match check_shapes(alloc, graph, limits) {
        Ok(decls) => decls,
        Err(fault) => return Err(check_refusal(fault)),
    };
    match compile(alloc, &decls, graph.pool(), limits, patterns) {
        Ok(plan) => Ok(plan),
        Err(fault) => Err(compile_refusal(&fault)),
    }
}
