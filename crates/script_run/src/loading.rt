//! Other shapes: a text of shapes takes the place of the one in force, and the data stays.
ghost use Rattle.std.specs.Prelude.{◌≡◌, ◌<◌, ◌≤◌, ◌-◌, ◌^◌, All, List, [], ◌∷◌, None, Some, Ok as ok};
ghost use Rattle.std.specs.Prelude.{false, IfErr, IfOk, IfSome, OnErr, OnOk, length, take};
ghost use Rattle.shx_outside.specs.Told.{StaysAdmitted};
ghost use Rattle.shx_term.specs.Limits.{AreUsable};
ghost use Rattle.shx_term.specs.Pool.{with_terms};
ghost use Rattle.shx_term.specs.TripleTerms.{numbered, numbered_all, terms_of};
ghost use Rattle.shx_term.specs.declared.term.Term.{Term as term_type};
ghost use Rattle.ttl_meaning.specs.State.{State};
ghost use Rattle.graph_view.specs.Graph.{Graph, IsKnownTriple, graph_of};
ghost use Rattle.graph_view.specs.Valid.{IsValidTriple, IsValidView};
ghost use Rattle.shape_compile.specs.Patterns.{AreAdmitted};
ghost use Rattle.shape_decl.specs.Declarations.{declarations};
ghost use Rattle.shape_eval.specs.Planned.{plan_of};
ghost use Rattle.edit_engine.specs.MayBeAsked.{MayBeAsked};
ghost use Rattle.script_lines.specs.declared.command.Command.TheVariants.{Shapes as shapes};
ghost use Rattle.shape_text.specs.Stops.{StopCause};
ghost use Rattle.shape_text.specs.TextReadings.{States, numbered_from, stated_graph};
ghost use Rattle.shape_text.specs.Turtle.{HasNoWide};
ghost use Rattle.script_run.specs.Admitted.{IsAdmitted, MayBeBuilt};
ghost use Rattle.script_run.specs.Hosts.{LoadsWithin, TellsRefusal};
ghost use Rattle.script_run.specs.Load.{IsJudgement};
ghost use Rattle.script_run.specs.Loaded.{library_of};
ghost use Rattle.script_run.specs.Manner.{Manner};
ghost use Rattle.script_run.specs.Replies.{MovesOn, Obeys};
ghost use Rattle.script_run.specs.Script.{judged_step};
ghost use Rattle.script_run.specs.ScriptState.{ScriptState};
ghost use Rattle.script_run.specs.Stored.{IsScriptRun, MayGoOn};
ghost use Rattle.script_run.specs.Work.{evaluating};
ghost use Rattle.script_run.specs.inner.Loading.{Comes, ComesOf, Grows, Halts, Loads, RefusesShapes};
ghost use Rattle.script_run.specs.inner.Loading.{RefusesText, TakesPlan, cut_at, over_terms, refused_shape};
ghost use Rattle.script_run.specs.inner.Loading.{stated_triple, stated_triples, told_code};

use crate::reply::{Reply, refuse_line, said};
use crate::script_run::ScriptRun;
use crate::stored_graph::StoredGraph;
use edit_engine::{Engine, plans_target_shapes_once, same_graphs_answer_alike};
use graph_view::GraphView;
use plan_swap::alike;
use report_write::Answer;
use shape_eval::Plan;
use shape_text::{Refusal, Stop, plan_stated, read_turtle, read_within};
use shx_outside::{Inputs, PatternHost, Role};
use shx_term::fault_codes::{GRAPH_TERMS, GROUP_OPEN, PATTERN_REFUSED, TEXT_TOO_LONG};
use shx_term::{Id, Limits, Pool, PoolFault, Scope, Steps, Text, Triple};
use std::alloc::Global;
use std::sync::ledger::Ledger;

/// Reads the text of shapes of this name, over a pool of its own, and takes its shapes where they make a
/// plan. Where they make none, the terms that they brought are given back.
pub fn take_shapes<I: Inputs, P: PatternHost, K: Ledger, L: Ledger>(
    alloc: Global,
    script: &mut ScriptRun,
    name: &Text,
    host: &mut I,
    patterns: &mut P,
    limits: &Limits,
    nested: &mut Steps<K>,
    steps: &mut Steps<L>,
) -> Result<Reply, Stop>
    requires usable { AreUsable limits.now }
    requires few { script.old.line < 2 ^ 64 - 1 }
    requires goes_on { MayGoOn script.old }
    requires running { script.old.halted ≡ false }
    requires admitted { IsAdmitted limits.now (library_of script.old.base (I.state host.old))
        (I.admits host.old Role.Shapes) (P.admits patterns.old) name.now }
    ensures replies { (manner : Manner) (s : ScriptState) → manner.limits ≡ limits.now
        → IsScriptRun manner.limits manner.format s script.old
        → IfOk result (λ reply. Obeys manner (library_of script.old.base (I.state host.old)) s
        (ok (shapes name.now)) reply script.new (P.state patterns.new).refused
        (evaluating steps.old nested.old) (evaluating steps.new nested.new)) }
    ensures moves { MovesOn result script.old script.new
        (evaluating steps.old nested.old) (evaluating steps.new nested.new) }
    ensures stopped { (manner : Manner) (s : ScriptState)
        → IsScriptRun manner.limits manner.format s script.old
        → IfErr result (λ stop. stop ≡ Stop.Input → s.group ≡ None) }
    ensures patterns { IfOk result (TellsRefusal (P.state patterns.old).faults (P.state patterns.new).faults
        script.new.halted) }
    ensures patterns_still { OnErr result ((P.state patterns.new).faults ≡ (P.state patterns.old).faults) }
    ensures inputs { LoadsWithin limits.now.text (I.state host.old) (I.state host.new) result }
    ensures cause { StopCause (I.state host.old).faults (I.state host.new).faults result }
    ensures admits { StaysAdmitted (I.admits host.old) (I.admits host.new) }
    ensures builds { StaysAdmitted (P.admits patterns.old) (P.admits patterns.new) }
{
    if script.group.is_some() {
        return Ok(refuse_line(script, GROUP_OPEN, None));
    }
    match read_within(alloc, host, Role::Shapes, name.as_str(), limits.text) {
        Ok(text) => load_text(alloc, script, text, patterns, limits, nested, steps),
        Err(refusal) => refuse_text(script, refusal),
    }
}

// Refuses the line, since its text could not be taken.
fn refuse_text(script: &mut ScriptRun, refusal: Refusal) -> Result<Reply, Stop>
    requires few { script.old.line < 2 ^ 64 - 1 }
    ensures { RefusesText refusal script.old script.new result }
{
    match refusal {
        Refusal::Text(answer) => Ok(refuse_line(script, told_code(&answer), None)),
        Refusal::Cut(stop) => Err(stop),
    }
}

// The code by which a text is refused.
fn told_code(answer: &Answer) -> u32
    ensures { result ≡ told_code answer.now }
{
    match answer {
        Answer::TextFault { code, .. } => *code,
        Answer::Rule { code, .. } | Answer::OfShape { code, .. } => *code,
        _ => TEXT_TOO_LONG,
    }
}

// Takes the shapes that a text states.
fn load_text<P: PatternHost, K: Ledger, L: Ledger>(
    alloc: Global,
    script: &mut ScriptRun,
    text: Vec<u8>,
    patterns: &mut P,
    limits: &Limits,
    nested: &mut Steps<K>,
    steps: &mut Steps<L>,
) -> Result<Reply, Stop>
    requires usable { AreUsable limits.now }
    requires few { script.old.line < 2 ^ 64 - 1 }
    requires goes_on { MayGoOn script.old }
    requires running { script.old.halted ≡ false }
    requires within { length text.items ≤ limits.now.text }
    requires admitted { MayBeBuilt limits.now script.old.base (P.admits patterns.old) (Some text.items) }
    ensures loads { (manner : Manner) (s : ScriptState) → manner.limits ≡ limits.now
        → IsScriptRun manner.limits manner.format s script.old
        → IfOk result (λ reply. Loads manner script.old.base (Some text.items) s reply script.new
        (P.state patterns.new).refused (evaluating steps.old nested.old) (evaluating steps.new nested.new)) }
    ensures moves { MovesOn result script.old script.new
        (evaluating steps.old nested.old) (evaluating steps.new nested.new) }
    ensures memory { IfErr result (λ stop. stop ≡ Stop.Memory) }
    ensures patterns { IfOk result (TellsRefusal (P.state patterns.old).faults (P.state patterns.new).faults
        script.new.halted) }
    ensures patterns_still { OnErr result ((P.state patterns.new).faults ≡ (P.state patterns.old).faults) }
    ensures builds { StaysAdmitted (P.admits patterns.old) (P.admits patterns.new) }
{
    let mut pool = Pool::with_vocabulary(alloc, limits.terms, script.keys)?;
    match read_turtle(alloc, text, &script.base, Scope::Shapes, limits, &mut pool) {
        Ok(document) => {
            let triples = &document.triples;
            load(
                alloc, script, &pool, triples, patterns, limits, nested, steps,
            )
        }
        Err(refusal) => refuse_text(script, refusal),
    }
}

// Takes the shapes that triples state, over the terms of the script's graph.
fn load<P: PatternHost, K: Ledger, L: Ledger>(
    alloc: Global,
    script: &mut ScriptRun,
    pool: &Pool,
    triples: &[Triple],
    patterns: &mut P,
    limits: &Limits,
    nested: &mut Steps<K>,
    steps: &mut Steps<L>,
) -> Result<Reply, Stop>
    requires usable { AreUsable limits.now }
    requires few { script.old.line < 2 ^ 64 - 1 }
    requires goes_on { MayGoOn script.old }
    requires running { script.old.halted ≡ false }
    requires valid { IsValidView (record { terms = pool.now.terms; triples = triples.now }) }
    requires admitted { (held : List term_type)
        → AreAdmitted (P.admits patterns.old)
        (numbered_from held (stated_triples pool.now.terms triples.now)).terms
        (declarations limits.now
        (stated_graph (numbered_from held (stated_triples pool.now.terms triples.now)))) }
    ensures comes { (manner : Manner) (s : ScriptState) (document : Graph) (end : State)
        → manner.limits ≡ limits.now → IsScriptRun manner.limits manner.format s script.old
        → end.triples ≡ stated_triples pool.now.terms triples.now
        → IfOk result (λ reply. ComesOf manner s (States document end) reply script.new
        (P.state patterns.new).refused (evaluating steps.old nested.old) (evaluating steps.new nested.new)) }
    ensures moves { MovesOn result script.old script.new
        (evaluating steps.old nested.old) (evaluating steps.new nested.new) }
    ensures memory { IfErr result (λ stop. stop ≡ Stop.Memory) }
    ensures patterns { IfOk result (TellsRefusal (P.state patterns.old).faults (P.state patterns.new).faults
        script.new.halted) }
    ensures patterns_still { OnErr result ((P.state patterns.new).faults ≡ (P.state patterns.old).faults) }
    ensures builds { StaysAdmitted (P.admits patterns.old) (P.admits patterns.new) }
{
    let held = script.engine.view().pool().len();
    match enter_triples(alloc, &mut script.engine, pool, triples) {
        Ok(entered) => judge_entered(
            alloc, script, held, &entered, patterns, limits, nested, steps,
        ),
        Err(PoolFault::Full) => {
            script.engine.cut(held);
            Ok(refuse_line(script, GRAPH_TERMS, None))
        }
        Err(PoolFault::Memory) => Err(Stop::Memory),
    }
}

// Enters the terms of triples beside the graph, and gives the triples over their numbers there.
fn enter_triples(
    alloc: Global,
    engine: &mut Engine<StoredGraph>,
    pool: &Pool,
    triples: &[Triple],
) -> Result<Vec<Triple>, PoolFault>
    requires valid { IsValidView (record { terms = pool.now.terms; triples = triples.now }) }
    ensures grows { Grows engine.old engine.new }
    ensures terms { OnOk result (engine.new.graph.terms
        ≡ with_terms engine.old.graph.terms (terms_of (stated_triples pool.now.terms triples.now))) }
    ensures numbers { IfOk result (λ entered. entered.items
        ≡ numbered_all engine.new.graph.terms (stated_triples pool.now.terms triples.now)) }
    ensures room { OnOk result (length engine.new.graph.terms ≤ engine.new.term_limit) }
    ensures full { IfErr result (λ fault. fault ≡ PoolFault.Full → engine.old.term_limit
        < length (with_terms engine.old.graph.terms
        (terms_of (stated_triples pool.now.terms triples.now)))) }
{
    let mut entered = Vec::with_capacity(alloc, triples.len())?;
    for t in triples {
        let triple = enter_triple(engine, pool, t)?;
        entered.push(triple)?;
    }
    // The pool holds no more than its limit.
    let _ = engine.view().pool().len();
    Ok(entered)
}

fn enter_triple(
    engine: &mut Engine<StoredGraph>,
    pool: &Pool,
    t: &Triple,
) -> Result<Triple, PoolFault>
    requires narrow { HasNoWide pool.now.terms }
    requires valid { IsValidTriple pool.now.terms t.now }
    ensures grows { Grows engine.old engine.new }
    ensures terms { OnOk result (IfSome (stated_triple pool.now.terms t.now) (λ stated.
        engine.new.graph.terms ≡ with_terms engine.old.graph.terms (terms_of (stated ∷ [])))) }
    ensures number { IfOk result (λ triple. IfSome (stated_triple pool.now.terms t.now) (λ stated.
        numbered engine.new.graph.terms stated ≡ Some triple)) }
    ensures full { IfErr result (λ fault. IfSome (stated_triple pool.now.terms t.now) (λ stated.
        fault ≡ PoolFault.Full → engine.old.term_limit
        < length (with_terms engine.old.graph.terms (terms_of (stated ∷ []))))) }
{
    let s = engine.enter(pool.term(t.s))?;
    let p = engine.enter(pool.term(t.p))?;
    let o = engine.enter(pool.term(t.o))?;
    Ok(Triple { s, p, o })
}

// Takes the shapes of triples whose terms were entered from this number on.
fn judge_entered<P: PatternHost, K: Ledger, L: Ledger>(
    alloc: Global,
    script: &mut ScriptRun,
    held: u32,
    entered: &[Triple],
    patterns: &mut P,
    limits: &Limits,
    nested: &mut Steps<K>,
    steps: &mut Steps<L>,
) -> Result<Reply, Stop>
    requires usable { AreUsable limits.now }
    requires few { script.old.line < 2 ^ 64 - 1 }
    requires goes_on { MayGoOn (cut_at held script.old) }
    requires running { script.old.halted ≡ false }
    requires settled { script.old.engine.settled ≤ held }
    requires within { held ≤ length script.old.engine.graph.terms }
    requires below { All (IsKnownTriple (take held script.old.engine.graph.terms))
        script.old.engine.graph.triples }
    requires known { All (IsKnownTriple script.old.engine.graph.terms) entered.now }
    requires admitted { AreAdmitted (P.admits patterns.old) script.old.engine.graph.terms
        (declarations limits.now (graph_of script.old.engine.graph.terms entered.now)) }
    ensures comes { (manner : Manner) (s : ScriptState) → manner.limits ≡ limits.now
        → IsScriptRun manner.limits manner.format s (cut_at held script.old)
        → IfOk result (λ reply. Comes manner
        (judged_step s (over_terms s script.old.engine.graph.terms))
        (λ refused judgement. IsJudgement manner.limits refused s.plan
        (graph_of script.old.engine.graph.terms entered.now) judgement) reply script.new
        (P.state patterns.new).refused (evaluating steps.old nested.old) (evaluating steps.new nested.new)) }
    ensures moves { MovesOn result script.old script.new
        (evaluating steps.old nested.old) (evaluating steps.new nested.new) }
    ensures memory { IfErr result (λ stop. stop ≡ Stop.Memory) }
    ensures patterns { IfOk result (TellsRefusal (P.state patterns.old).faults (P.state patterns.new).faults
        script.new.halted) }
    ensures patterns_still { OnErr result ((P.state patterns.new).faults ≡ (P.state patterns.old).faults) }
    ensures builds { StaysAdmitted (P.admits patterns.old) (P.admits patterns.new) }
{
    // So the plan of the shapes may be asked of the graph.
    plans_target_shapes_once();
    let pool = script.engine.view().pool();
    match plan_stated(alloc, pool, entered, limits, patterns) {
        Ok(plan) => take_plan(alloc, script, plan, nested, steps),
        Err(Refusal::Text(answer)) => Ok(refuse_shapes(script, &answer, held)),
        Err(Refusal::Cut(stop)) => Err(stop),
    }
}

// The shapes are those of this plan from now on.
fn take_plan<K: Ledger, L: Ledger>(
    alloc: Global,
    script: &mut ScriptRun,
    plan: Plan,
    nested: &mut Steps<K>,
    steps: &mut Steps<L>,
) -> Result<Reply, Stop>
    requires few { script.old.line < 2 ^ 64 - 1 }
    requires goes_on { MayGoOn script.old }
    requires asked { MayBeAsked (plan_of plan) script.old.engine.graph }
    ensures taken { (manner : Manner) (s : ScriptState)
        → IsScriptRun manner.limits manner.format s script.old
        → IfOk result (λ reply. TakesPlan manner s (plan_of plan) reply script.new
        (evaluating steps.old nested.old) (evaluating steps.new nested.new)) }
    ensures moves { MovesOn result script.old script.new
        (evaluating steps.old nested.old) (evaluating steps.new nested.new) }
    ensures running { script.new.halted ≡ script.old.halted }
    ensures memory { IfErr result (λ stop. stop ≡ Stop.Memory) }
{
    // The graph may be stored in another order than the script's.
    same_graphs_answer_alike();
    let _ = script.engine.view();
    let alikes = alike(alloc, script.engine.plan(), &plan)?;
    let evaluated = script.engine.adopt(alloc, plan, &alikes, nested, steps)?;
    Ok(said(script, Reply::Answers(Answer::ShapesTaken { evaluated })))
}

// Refuses the line, since its shapes make no plan, and gives their terms back. Where the host refused a
// pattern, the script ends with it.
fn refuse_shapes(script: &mut ScriptRun, answer: &Answer, held: u32) -> Reply
    requires few { script.old.line < 2 ^ 64 - 1 }
    requires settled { script.old.engine.settled ≤ held }
    requires within { held ≤ length script.old.engine.graph.terms }
    ensures { RefusesShapes held answer.now (refused_shape answer.now) script.old script.new result }
{
    match refused_shape(answer) {
        Some(shape) => halt(script, shape),
        None => {
            script.engine.cut(held);
            refuse_line(script, told_code(answer), None)
        }
    }
}

// The shape whose pattern the host refused, where the answer tells of one.
fn refused_shape(answer: &Answer) -> Option<Id>
    ensures { result ≡ refused_shape answer.now }
{
    match answer {
        Answer::OfShape { code, shape } if *code == PATTERN_REFUSED => Some(*shape),
        _ => None,
    }
}

fn halt(script: &mut ScriptRun, shape: Id) -> Reply
    requires few { script.old.line < 2 ^ 64 - 1 }
    ensures { Halts shape script.old script.new result }
{
    script.halted = true;
    let code = PATTERN_REFUSED;
    said(script, Reply::Answers(Answer::OfShape { code, shape }))
}
