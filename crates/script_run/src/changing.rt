//! Lines that change the graph, or how edits are taken: edits, groups, undo and redo.
ghost use Rattle.std.specs.Prelude.{◌≡◌, ◌<◌, ◌+◌, ◌-◌, ◌^◌, true, false, None};
ghost use Rattle.std.specs.Prelude.{All, IfOk, IfErr, OnErr};
ghost use Rattle.std.specs.Option.{is_some, option_copied};
ghost use Rattle.shx_term.specs.Edit.{IsValidEdit};
ghost use Rattle.edit_engine.specs.Applied.{Applies, IsChanged, Refuses, SamePlan, counted_at};
ghost use Rattle.edit_engine.specs.Course.{IsReady};
ghost use Rattle.edit_engine.specs.Edits.{net_of};
ghost use Rattle.edit_engine.specs.Nets.{turned};
ghost use Rattle.edit_history.specs.History.{Commits, DropsStaged, MovesTo, entered};
ghost use Rattle.script_run.specs.Manner.{Manner};
ghost use Rattle.script_run.specs.Script.{abandon_step, begin_step, commit_step, edit_step};
ghost use Rattle.script_run.specs.ScriptState.{ScriptState};
ghost use Rattle.script_run.specs.Work.{Work, evaluating};
ghost use Rattle.script_run.specs.inner.Changing.{IsRefusedBy, made_behind, next_change, none_next, way_step};
ghost use Rattle.script_run.specs.Replies.{AnswersOn, MovesOn, Replies};
ghost use Rattle.script_run.specs.Stored.{IsScriptRun, MayGoOn};

use crate::alike::changes_come_alike;
use crate::reply::{Reply, refuse_line, said};
use crate::script_run::ScriptRun;
use crate::stored_graph::StoredGraph;
use edit_engine::{Change, Edit, EditFault, Engine, edits_come_to_a_net};
use edit_history::{History, Net};
use report_write::Answer;
use shx_term::fault_codes::{
    GRAPH_TERMS, GRAPH_TRIPLES, GROUP_OPEN, GROUP_TOO_LONG, NO_GROUP, NOTHING_TO_REDO,
    NOTHING_TO_UNDO,
};
use shx_term::{Limits, Memory, Steps};
use std::alloc::{AllocError, Global};
use std::slice;
use std::sync::ledger::Ledger;

/// Makes an edit; or, within a group, lets it wait there.
pub fn do_edit<K: Ledger, L: Ledger>(
    alloc: Global,
    script: &mut ScriptRun,
    edit: Edit,
    limits: &Limits,
    nested: &mut Steps<K>,
    steps: &mut Steps<L>,
) -> Result<Reply, Memory>
    requires few { script.old.line < 2 ^ 64 - 1 }
    requires valid { IsValidEdit edit }
    requires goes_on { MayGoOn script.old }
    ensures replies { (manner : Manner) (s : ScriptState) → manner.limits ≡ limits.now
        → IsScriptRun manner.limits manner.format s script.old
        → IfOk result (λ reply. Replies manner (edit_step manner.limits s edit s.group) reply script.new
        (evaluating steps.old nested.old) (evaluating steps.new nested.new)) }
    ensures moves { MovesOn result script.old script.new
        (evaluating steps.old nested.old) (evaluating steps.new nested.new) }
    ensures running { script.new.halted ≡ script.old.halted }
{
    if script.group.is_some() {
        return queue(script, edit, limits);
    }
    changes_come_alike(&script.engine);
    let made = make_edits(
        alloc,
        &mut script.engine,
        &mut script.history,
        slice::from_ref(&edit),
        nested,
        steps,
    );
    match made {
        Ok(change) => Ok(said(script, Reply::Answers(change_answer(change)))),
        Err(fault) => refuse_edits(script, fault),
    }
}

// An edit waits in the open group, where there is room.
fn queue(script: &mut ScriptRun, edit: Edit, limits: &Limits) -> Result<Reply, Memory>
    requires few { script.old.line < 2 ^ 64 - 1 }
    requires valid { IsValidEdit edit }
    requires goes_on { MayGoOn script.old }
    requires open { is_some script.old.group ≡ true }
    ensures replies { (manner : Manner) (s : ScriptState) (work : Work) → manner.limits ≡ limits.now
        → IsScriptRun manner.limits manner.format s script.old
        → IfOk result (λ reply. Replies manner (edit_step manner.limits s edit s.group) reply script.new
        work work) }
    ensures moves { (work : Work) → MovesOn result script.old script.new work work }
    ensures running { script.new.halted ≡ script.old.halted }
{
    let Some(waiting) = &mut script.group else {
        unreachable!()
    };
    if waiting.len() >= limits.group as usize {
        return Ok(refuse_line(script, GROUP_TOO_LONG, None));
    }
    waiting.push(edit)?;
    Ok(said(script, Reply::Answers(Answer::Queued)))
}

/// Opens a group.
pub fn begin(alloc: Global, script: &mut ScriptRun) -> Reply
    requires few { script.old.line < 2 ^ 64 - 1 }
    requires goes_on { MayGoOn script.old }
    ensures replies { (manner : Manner) (s : ScriptState) (work : Work)
        → IsScriptRun manner.limits manner.format s script.old
        → Replies manner (begin_step s s.group) result script.new work work }
    ensures moves { (work : Work) → AnswersOn result script.old script.new work work }
    ensures running { script.new.halted ≡ script.old.halted }
{
    if script.group.is_some() {
        return refuse_line(script, GROUP_OPEN, None);
    }
    script.group = Some(Vec::new(alloc));
    said(script, Reply::Answers(Answer::Begun))
}

/// Makes the edits of the group at once. Where a limit would be passed, the group stays open.
pub fn commit<K: Ledger, L: Ledger>(
    alloc: Global,
    script: &mut ScriptRun,
    nested: &mut Steps<K>,
    steps: &mut Steps<L>,
) -> Result<Reply, Memory>
    requires few { script.old.line < 2 ^ 64 - 1 }
    requires goes_on { MayGoOn script.old }
    ensures replies { (manner : Manner) (s : ScriptState)
        → IsScriptRun manner.limits manner.format s script.old
        → IfOk result (λ reply. Replies manner (commit_step manner.limits s s.group) reply script.new
        (evaluating steps.old nested.old) (evaluating steps.new nested.new)) }
    ensures moves { MovesOn result script.old script.new
        (evaluating steps.old nested.old) (evaluating steps.new nested.new) }
    ensures running { script.new.halted ≡ script.old.halted }
{
    changes_come_alike(&script.engine);
    let Some(waiting) = &script.group else {
        return Ok(refuse_line(script, NO_GROUP, None));
    };
    let made = make_edits(
        alloc,
        &mut script.engine,
        &mut script.history,
        waiting,
        nested,
        steps,
    );
    match made {
        Ok(change) => {
            close_group(script);
            Ok(said(script, Reply::Answers(change_answer(change))))
        }
        Err(fault) => refuse_edits(script, fault),
    }
}

fn close_group(script: &mut ScriptRun)
    ensures { script.new ≡ record script.old { group = None } }
{
    script.group = None;
}

/// Gives the group up.
pub fn abandon(script: &mut ScriptRun) -> Reply
    requires few { script.old.line < 2 ^ 64 - 1 }
    requires goes_on { MayGoOn script.old }
    ensures replies { (manner : Manner) (s : ScriptState) (work : Work)
        → IsScriptRun manner.limits manner.format s script.old
        → Replies manner (abandon_step s s.group) result script.new work work }
    ensures moves { (work : Work) → AnswersOn result script.old script.new work work }
    ensures running { script.new.halted ≡ script.old.halted }
{
    if script.group.is_none() {
        return refuse_line(script, NO_GROUP, None);
    }
    close_group(script);
    said(script, Reply::Answers(Answer::Abandoned))
}

/// Takes the last change back that is made; or makes the first again that was taken back.
pub fn undo_or_redo<K: Ledger, L: Ledger>(
    alloc: Global,
    script: &mut ScriptRun,
    back: bool,
    nested: &mut Steps<K>,
    steps: &mut Steps<L>,
) -> Result<Reply, Memory>
    requires few { script.old.line < 2 ^ 64 - 1 }
    requires goes_on { MayGoOn script.old }
    ensures replies { (manner : Manner) (s : ScriptState)
        → IsScriptRun manner.limits manner.format s script.old
        → IfOk result (λ reply. Replies manner (way_step back manner.limits s s.group) reply script.new
        (evaluating steps.old nested.old) (evaluating steps.new nested.new)) }
    ensures moves { MovesOn result script.old script.new
        (evaluating steps.old nested.old) (evaluating steps.new nested.new) }
    ensures running { script.new.halted ≡ script.old.halted }
{
    if script.group.is_some() {
        return Ok(refuse_line(script, GROUP_OPEN, None));
    }
    changes_come_alike(&script.engine);
    let Some(net) = next_net(&script.history, back) else {
        return Ok(refuse_line(script, none_next(back), None));
    };
    let change = move_by(alloc, &mut script.engine, net, back, nested, steps)?;
    move_history(&mut script.history, back);
    Ok(said(script, Reply::Answers(change_answer(change))))
}

// The change that is next on the way.
fn next_net(history: &History, back: bool) -> Option<&Net>
    ensures { option_copied result ≡ next_change back history.now }
{
    if back {
        history.undo_net()
    } else {
        history.redo_net()
    }
}

// How a line is refused where there is none.
fn none_next(back: bool) -> u32
    ensures { result ≡ none_next back }
{
    if back {
        NOTHING_TO_UNDO
    } else {
        NOTHING_TO_REDO
    }
}

// The history is moved by it.
fn move_history(history: &mut History, back: bool)
    requires { is_some (next_change back history.old) ≡ true }
    ensures { MovesTo history.old history.new (made_behind back history.old.cursor) }
{
    if back {
        history.undone();
    } else {
        history.redone();
    }
}

// A change of the history passes no limit.
fn move_by<K: Ledger, L: Ledger>(
    alloc: Global,
    engine: &mut Engine<StoredGraph>,
    net: &Net,
    backwards: bool,
    nested: &mut Steps<K>,
    steps: &mut Steps<L>,
) -> Result<Change, Memory>
    requires { IsReady engine.old.triple_limit engine.old.graph (turned backwards net.now) }
    ensures plan { SamePlan engine.old engine.new }
    ensures made { IfOk result (λ change. IsChanged engine.old (turned backwards net.now) change engine.new
        nested.old nested.new) }
    ensures steps { IfOk result (λ change. steps.new ≡ steps.old + change.evaluated) }
{
    changes_come_alike(engine);
    match engine.apply_net(alloc, net, backwards, nested, steps) {
        Ok(change) => Ok(change),
        Err(EditFault::Memory) => Err(AllocError),
        Err(_) => unreachable!(),
    }
}

// Makes edits as one change. Where the graph is another one then, it is the last change of the history.
fn make_edits<K: Ledger, L: Ledger>(
    alloc: Global,
    engine: &mut Engine<StoredGraph>,
    history: &mut History,
    edits: &[Edit],
    nested: &mut Steps<K>,
    steps: &mut Steps<L>,
) -> Result<Change, EditFault>
    requires valid { All IsValidEdit edits.now }
    requires settled { history.old.staged ≡ None }
    ensures plan { SamePlan engine.old engine.new }
    ensures applied { IfOk result (λ change. Applies engine.old (net_of engine.old.graph edits.now) change
        engine.new nested.old nested.new) }
    ensures steps { IfOk result (λ change. steps.new ≡ steps.old + change.evaluated) }
    ensures refused { IfErr result (λ fault. Refuses engine.old (net_of engine.old.graph edits.now) fault
        engine.new (counted_at steps.old nested.old) (counted_at steps.new nested.new)) }
    ensures entered { IfOk result (λ change. change.changed ≡ true
        → history.new ≡ entered history.old (net_of engine.old.graph edits.now)) }
    ensures unchanged { IfOk result (λ change. change.changed ≡ false → history.new ≡ history.old) }
    ensures kept { OnErr result (history.new ≡ history.old) }
{
    edits_come_to_a_net();
    let net = engine.net_of(alloc, edits)?;
    history.stage(net)?;
    let Some(staged) = history.staged_net() else {
        unreachable!()
    };
    match engine.apply_net(alloc, staged, false, nested, steps) {
        Ok(change) => {
            settle(history, change.changed);
            Ok(change)
        }
        Err(fault) => {
            history.drop_staged();
            Err(fault)
        }
    }
}

// A change that is staged is the last of the history where it made the graph another one.
fn settle(history: &mut History, changed: bool)
    ensures entered { changed ≡ true → Commits history.old history.new }
    ensures dropped { changed ≡ false → DropsStaged history.old history.new }
{
    if changed {
        history.commit();
    } else {
        history.drop_staged();
    }
}

// Refuses edits, by their fault.
fn refuse_edits(script: &mut ScriptRun, fault: EditFault) -> Result<Reply, Memory>
    requires { script.old.line < 2 ^ 64 - 1 }
    ensures replies { (manner : Manner) (s : ScriptState) (work : Work)
        → IsScriptRun manner.limits manner.format s script.old
        → IfOk result (λ reply. IsRefusedBy manner s fault reply script.new work) }
    ensures memory { fault ≡ EditFault.Memory → IfOk result (λ reply. ⊥) }
    ensures names { script.new.document ≡ script.old.document }
    ensures base { script.new.base ≡ script.old.base }
    ensures format { script.new.format ≡ script.old.format }
    ensures running { script.new.halted ≡ script.old.halted }
    ensures moves { MayGoOn script.old → (work : Work) → MovesOn result script.old script.new work work }
{
    match fault {
        EditFault::TooManyTriples => Ok(refuse_line(script, GRAPH_TRIPLES, None)),
        EditFault::TooManyTerms => Ok(refuse_line(script, GRAPH_TERMS, None)),
        EditFault::Memory => Err(AllocError),
    }
}

// What came of an edit, as it is told.
fn change_answer(change: Change) -> Answer
    ensures changed { change.changed ≡ true → result ≡ Answer.Changed change.evaluated }
    ensures unchanged { change.changed ≡ false → result ≡ Answer.Unchanged }
{
    if change.changed {
        Answer::Changed {
            evaluated: change.evaluated,
        }
    } else {
        Answer::Unchanged
    }
}
