//! From the triples that a text states to a plan, over the terms of a pool.
ghost use Rattle.std.specs.Prelude.{◌≡◌, All, IfErr, IfOk};
ghost use Rattle.shx_outside.specs.Told.{StaysAdmitted};
ghost use Rattle.shx_term.specs.Limits.{AreUsable};
ghost use Rattle.graph_view.specs.Graph.{IsKnownTriple, first_places, graph_of};
ghost use Rattle.shape_decl.specs.Declarations.{declarations};
ghost use Rattle.shape_compile.specs.Patterns.{AreAdmitted};
ghost use Rattle.shape_eval.specs.Planned.{plan_of};
ghost use Rattle.shape_text.specs.Judging.{IsUnplanned, PlansAs};
ghost use Rattle.shape_text.specs.Refusal.{IsQuiet};

use crate::judging::plan_shapes;
use crate::refusal::Refusal;
use graph_view::Lent;
use indexmap::IndexSet;
use shape_eval::Plan;
use shx_outside::PatternHost;
use shx_term::{Limits, Memory, Pool, Triple};
use std::alloc::Global;
use triple_store::Overlay;

/// The plan of the shapes that triples state over the terms of a pool, or why there is none. A triple may
/// stand among them more than once. Look-ups are indexed: beside what the shapes take, it takes time
/// `O(n log n)` in the triples.
pub fn plan_stated<P: PatternHost>(
    alloc: Global,
    pool: &Pool,
    triples: &[Triple],
    limits: &Limits,
    patterns: &mut P,
) -> Result<Plan, Refusal>
    requires usable { AreUsable limits.now }
    requires known { All (IsKnownTriple pool.now.terms) triples.now }
    requires admitted { AreAdmitted (P.admits patterns.old) pool.now.terms
        (declarations limits.now (graph_of pool.now.terms triples.now)) }
    ensures plan { IfOk result (λ plan. PlansAs limits.now (graph_of pool.now.terms triples.now)
        (P.state patterns.old) (P.state patterns.new) (plan_of plan)) }
    ensures refused { IfErr result (IsUnplanned limits.now (graph_of pool.now.terms triples.now)
        (P.state patterns.old) (P.state patterns.new)) }
    ensures cut { IfErr result IsQuiet }
    ensures admits { StaysAdmitted (P.admits patterns.old) (P.admits patterns.new) }
{
    let stated = each_once(alloc, triples)?;
    let nothing = Lent::new(pool, &[]);
    let view = Overlay::new(alloc, &nothing, &stated, &[])?;
    plan_shapes(alloc, &view, limits, patterns)
}

// The triples, each at its first place.
fn each_once(alloc: Global, triples: &[Triple]) -> Result<Vec<Triple>, Memory>
    ensures { IfOk result (λ once. once.items ≡ first_places triples.now) }
{
    let mut once = IndexSet::with_capacity(alloc, triples.len())?;
    for t in triples {
        once.insert(*t)?;
    }
    Ok(once.into_iter().collect(alloc)?)
}
