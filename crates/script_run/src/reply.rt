//! Replies to the lines of a script.
ghost use Rattle.std.specs.Prelude.{◌≡◌, ◌<◌, ◌+◌, ◌-◌, ◌^◌, [], ◌∷◌, false, IfOk, IfErr, OnErr, Some};
ghost use Rattle.std.specs.Prelude.{Ok as ok};
ghost use Rattle.shx_outside.specs.Told.{StaysAdmitted};
ghost use Rattle.shx_term.specs.Limits.{AreUsable};
ghost use Rattle.text_output.specs.Writes.{Writes};
ghost use Rattle.script_lines.specs.Lines.{IsValidCommand};
ghost use Rattle.ttl_meaning.specs.State.{State};
ghost use Rattle.shape_text.specs.Names.{HasNamesOf};
ghost use Rattle.shape_text.specs.Stops.{StopCause};
ghost use Rattle.script_run.specs.Admitted.{AreAdmitted, IsCommandAdmitted};
ghost use Rattle.script_run.specs.Hosts.{LoadsWithin, TellsRefusal};
ghost use Rattle.script_run.specs.LineReadings.{HasReading, IsReadBehind};
ghost use Rattle.script_run.specs.Loaded.{LoadsNothing, library_of};
ghost use Rattle.script_run.specs.Manner.{Manner};
ghost use Rattle.script_run.specs.Replies.{AnswersOn, IsCutAt, IsCutBy, MovesOn, Obeys};
ghost use Rattle.script_run.specs.Replies.{Replies, reply_text};
ghost use Rattle.script_run.specs.Script.{command_step, refusal};
ghost use Rattle.script_run.specs.ScriptState.{ScriptState};
ghost use Rattle.script_run.specs.Stored.{IsScriptRun, MayGoOn};
ghost use Rattle.script_run.specs.Work.{Work, evaluating};

use crate::changing::{abandon, begin, commit, do_edit, undo_or_redo};
use crate::loading::take_shapes;
use crate::read_once::lines_are_read_once;
use crate::script_run::ScriptRun;
use crate::slicing::slice;
use edit_engine::same_graphs_answer_alike;
use graph_view::GraphView;
use pair_slice::Slice;
use report_write::{Answer, write_answer, write_report, write_slice};
use script_lines::{Command, LineFault, read_line};
use shape_text::Stop;
use shx_outside::{Inputs, PatternHost, Role, Sink};
use shx_term::{Limits, Memory, Steps};
use std::alloc::Global;
use std::sync::ledger::Ledger;
use text_output::WriteFault;

/// What is said to a line.
pub enum Reply {
    Answers(Answer),
    /// The report of the graph as it is now.
    Report,
    /// The triples on which the results of a pair rest.
    Slice(Slice),
    /// The line is blank.
    Nothing,
}

// A derived drop is no call: each place where a reply ends would split into one path for each kind.
impl Drop for Reply {
    fn drop(self) {
        match self {
            Reply::Answers(_answer) => {}
            Reply::Slice(_slice) => {}
            Reply::Report | Reply::Nothing => {}
        }
    }
}

/// Does what a line asks for, a line that is not too long. A refused line changes nothing but the count of
/// lines. Only for a line that loads shapes the inputs and the pattern host are used.
pub fn reply_to<I: Inputs, P: PatternHost, K: Ledger, L: Ledger>(
    alloc: Global,
    script: &mut ScriptRun,
    line: &[u8],
    host: &mut I,
    patterns: &mut P,
    limits: &Limits,
    nested: &mut Steps<K>,
    steps: &mut Steps<L>,
) -> Result<Reply, Stop>
    requires usable { AreUsable limits.now }
    requires few { script.old.line < 2 ^ 64 - 1 }
    requires goes_on { MayGoOn script.old }
    requires running { script.old.halted ≡ false }
    requires admitted { AreAdmitted limits.now (library_of script.old.base (I.state host.old))
        (I.admits host.old Role.Shapes) (P.admits patterns.old) (Some (line.now ∷ [])) }
    ensures replies { (manner : Manner) (s : ScriptState) → manner.limits ≡ limits.now
        → IsScriptRun manner.limits manner.format s script.old
        → IsReadBehind limits.now s.data_end line.now (manner.lines line.now)
        → IfOk result (λ reply. Obeys manner (library_of script.old.base (I.state host.old)) s
        (manner.lines line.now) reply script.new (P.state patterns.new).refused
        (evaluating steps.old nested.old) (evaluating steps.new nested.new)) }
    ensures read { (end : State) → HasNamesOf end script.old.document
        → IfOk result (λ reply. HasReading limits.now end line.now) }
    ensures moves { MovesOn result script.old script.new
        (evaluating steps.old nested.old) (evaluating steps.new nested.new) }
    ensures stopped { (manner : Manner) (s : ScriptState) → manner.limits ≡ limits.now
        → IsScriptRun manner.limits manner.format s script.old
        → IsReadBehind limits.now s.data_end line.now (manner.lines line.now)
        → IfErr result (λ stop. stop ≡ Stop.Input → IsCutAt manner s line.now) }
    ensures patterns { IfOk result (TellsRefusal (P.state patterns.old).faults (P.state patterns.new).faults
        script.new.halted) }
    ensures patterns_still { OnErr result ((P.state patterns.new).faults ≡ (P.state patterns.old).faults) }
    ensures inputs { LoadsWithin limits.now.text (I.state host.old) (I.state host.new) result }
    ensures cause { StopCause (I.state host.old).faults (I.state host.new).faults result }
    ensures admits { StaysAdmitted (I.admits host.old) (I.admits host.new) }
    ensures builds { StaysAdmitted (P.admits patterns.old) (P.admits patterns.new) }
{
    // So what is read here is the reading that was told.
    lines_are_read_once();
    match read_line(alloc, line, &script.document, limits) {
        Ok(command) => do_command(
            alloc, script, command, host, patterns, limits, nested, steps,
        ),
        Err(LineFault::Line { code, at }) => Ok(refuse_line(script, code, at)),
        Err(LineFault::Memory) => Err(Stop::Memory),
    }
}

/// Refuses the line at hand: it is counted, and nothing else changes.
pub fn refuse_line(script: &mut ScriptRun, code: u32, at: Option<u64>) -> Reply
    requires { script.old.line < 2 ^ 64 - 1 }
    ensures replies { (manner : Manner) (s : ScriptState) (work : Work)
        → IsScriptRun manner.limits manner.format s script.old
        → Replies manner (refusal s code at) result script.new work work }
    ensures names { script.new.document ≡ script.old.document }
    ensures base { script.new.base ≡ script.old.base }
    ensures format { script.new.format ≡ script.old.format }
    ensures running { script.new.halted ≡ script.old.halted }
    ensures moves { MayGoOn script.old → (work : Work)
        → AnswersOn result script.old script.new work work }
{
    script.line += 1;
    script.refused = true;
    let line = script.line;
    Reply::Answers(match at {
        Some(at) => Answer::RefusedAt { line, code, at },
        None => Answer::RefusedLine { line, code },
    })
}

// Does what a command asks for: only one that loads shapes needs the inputs and the pattern host.
fn do_command<I: Inputs, P: PatternHost, K: Ledger, L: Ledger>(
    alloc: Global,
    script: &mut ScriptRun,
    command: Command,
    host: &mut I,
    patterns: &mut P,
    limits: &Limits,
    nested: &mut Steps<K>,
    steps: &mut Steps<L>,
) -> Result<Reply, Stop>
    requires usable { AreUsable limits.now }
    requires few { script.old.line < 2 ^ 64 - 1 }
    requires valid { IsValidCommand command }
    requires goes_on { MayGoOn script.old }
    requires running { script.old.halted ≡ false }
    requires admitted { IsCommandAdmitted limits.now (library_of script.old.base (I.state host.old))
        (I.admits host.old Role.Shapes) (P.admits patterns.old) command }
    ensures replies { (manner : Manner) (s : ScriptState) → manner.limits ≡ limits.now
        → IsScriptRun manner.limits manner.format s script.old
        → IfOk result (λ reply. Obeys manner (library_of script.old.base (I.state host.old)) s
        (ok command) reply script.new (P.state patterns.new).refused
        (evaluating steps.old nested.old) (evaluating steps.new nested.new)) }
    ensures moves { MovesOn result script.old script.new
        (evaluating steps.old nested.old) (evaluating steps.new nested.new) }
    ensures stopped { (manner : Manner) (s : ScriptState)
        → IsScriptRun manner.limits manner.format s script.old
        → IfErr result (λ stop. stop ≡ Stop.Input → IsCutBy manner.limits s command) }
    ensures patterns { IfOk result (TellsRefusal (P.state patterns.old).faults (P.state patterns.new).faults
        script.new.halted) }
    ensures patterns_still { OnErr result ((P.state patterns.new).faults ≡ (P.state patterns.old).faults) }
    ensures inputs { LoadsWithin limits.now.text (I.state host.old) (I.state host.new) result }
    ensures cause { StopCause (I.state host.old).faults (I.state host.new).faults result }
    ensures admits { StaysAdmitted (I.admits host.old) (I.admits host.new) }
    ensures builds { StaysAdmitted (P.admits patterns.old) (P.admits patterns.new) }
{
    match &command {
        Command::Shapes(name) => take_shapes(
            alloc, script, name, host, patterns, limits, nested, steps,
        ),
        _ => Ok(do_alone(alloc, script, command, limits, nested, steps)?),
    }
}

// Does what a command asks for that loads nothing.
fn do_alone<K: Ledger, L: Ledger>(
    alloc: Global,
    script: &mut ScriptRun,
    command: Command,
    limits: &Limits,
    nested: &mut Steps<K>,
    steps: &mut Steps<L>,
) -> Result<Reply, Memory>
    requires few { script.old.line < 2 ^ 64 - 1 }
    requires valid { IsValidCommand command }
    requires alone { LoadsNothing command }
    requires goes_on { MayGoOn script.old }
    ensures replies { (manner : Manner) (s : ScriptState) → manner.limits ≡ limits.now
        → IsScriptRun manner.limits manner.format s script.old
        → IfOk result (λ reply.
        Replies manner (command_step manner.limits s command) reply script.new
        (evaluating steps.old nested.old) (evaluating steps.new nested.new)) }
    ensures moves { MovesOn result script.old script.new
        (evaluating steps.old nested.old) (evaluating steps.new nested.new) }
    ensures running { script.new.halted ≡ script.old.halted }
{
    // The graph may be stored in another order than the script's.
    same_graphs_answer_alike();
    let _ = script.engine.view();
    match &command {
        Command::Edit(_) => {}
        Command::Report => return Ok(said(script, Reply::Report)),
        Command::Count => {
            let answer = script.count();
            return Ok(said(script, Reply::Answers(answer)));
        }
        Command::Begin => return Ok(begin(alloc, script)),
        Command::Commit => return commit(alloc, script, nested, steps),
        Command::Abandon => return Ok(abandon(script)),
        Command::Undo => return undo_or_redo(alloc, script, true, nested, steps),
        Command::Redo => return undo_or_redo(alloc, script, false, nested, steps),
        Command::Slice { shape, node } => return slice(alloc, script, shape, node),
        Command::Shapes(_) => unreachable!(),
        Command::Nothing => return Ok(said(script, Reply::Nothing)),
    }
    match command.into_edit() {
        Some(edit) => do_edit(alloc, script, edit, limits, nested, steps),
        None => unreachable!(),
    }
}

/// The line at hand was answered so.
pub fn said(script: &mut ScriptRun, reply: Reply) -> Reply
    requires { script.old.line < 2 ^ 64 - 1 }
    ensures reply { result ≡ reply }
    ensures counted { script.new ≡ record script.old { line = script.old.line + 1 } }
{
    script.line += 1;
    reply
}

/// Writes a reply.
pub fn write_reply<O: Sink>(
    reply: &Reply,
    script: &ScriptRun,
    out: &mut O,
) -> Result<(), WriteFault>
    ensures { Writes (O.state out.old) (O.state out.new)
        (reply_text script.now.format script.now.engine.plan script.now.engine.graph reply.now) result }
{
    let engine = &script.engine;
    let pool = engine.view().pool();
    match reply {
        Reply::Answers(answer) => write_answer(answer, pool, script.format, out),
        Reply::Report => {
            write_report(
                engine.rows(),
                engine.result_count(),
                engine.plan(),
                pool,
                script.format,
                out,
            )
        }
        Reply::Slice(slice) => write_slice(slice.triples(), pool, script.format, out),
        Reply::Nothing => Ok(()),
    }
}
