//! Answering the lines of a script.
ghost use Rattle.std.specs.Prelude.{◌≡◌, ◌≢◌, ◌≤◌, ◌⊎◌, true, false, None, Some};
ghost use Rattle.std.specs.Option.{option_map};
ghost use Rattle.shx_outside.specs.Counted.{Rose};
ghost use Rattle.shx_outside.specs.declared.role.Role.TheVariants.{Script};
ghost use Rattle.shx_outside.specs.Told.{IsAtEnd};
ghost use Rattle.shx_term.specs.Limits.{AreUsable};
ghost use Rattle.text_input.specs.Lines.{script_lines};
ghost use Rattle.text_input.specs.TextRead.{TakesWithin};
ghost use Rattle.text_output.specs.Writes.{Writes};
ghost use Rattle.ttl_meaning.specs.State.{State};
ghost use Rattle.shape_text.specs.Names.{HasNamesOf};
ghost use Rattle.script_run.specs.Admitted.{AreAdmitted};
ghost use Rattle.script_run.specs.Loaded.{library_of};
ghost use Rattle.script_run.specs.Manner.{Manner};
ghost use Rattle.script_run.specs.ScriptState.{ScriptState};
ghost use Rattle.script_run.specs.Stored.{IsScriptRun, MayGoOn};
ghost use Rattle.shacl_run.specs.declared.status.Status.TheVariants.{InputFault};
ghost use Rattle.shacl_run.specs.Outside.{Outside, outside};
ghost use Rattle.shacl_run.specs.Run.{end_of_script};
ghost use Rattle.shacl_run.specs.Status.{IsAnswered, IsCutShort, IsReported};
ghost use Rattle.shacl_run.specs.inner.Ends.{Ends, EndsByPattern};
ghost use Rattle.shacl_run.specs.inner.Serving.{HaveReadings, LinesAreReadAt, ServesInputs, ServesScript};
ghost use Rattle.shacl_run.specs.inner.Serving.{open_notice};
ghost use Rattle.shacl_run.specs.inner.Stops.{end_status};

use crate::ending::{refuse, status_of_script};
use crate::status::Status;
use crate::take_line::{Taken, take_line};
use graph_view::GraphView;
use report_write::{Answer, write_answer};
use script_run::{ScriptRun, write_reply};
use shape_text::Stop;
use shx_outside::{Inputs, PatternHost, Role, Sink};
use shx_term::{Limits, Steps};
use std::alloc::Global;
use std::sync::ledger::Ledger;
use text_input::ScriptReader;
use text_output::WriteFault;

/// Answers the lines of an opened script, each before the next is taken.
pub fn serve<I: Inputs, O: Sink, P: PatternHost, K: Ledger, L: Ledger>(
    alloc: Global,
    script: &mut ScriptRun,
    host: &mut I,
    out: &mut O,
    patterns: &mut P,
    limits: &Limits,
    nested: &mut Steps<K>,
    steps: &mut Steps<L>,
) -> Result<Status, Stop>
    requires usable { AreUsable limits.now }
    requires opened { (I.state host.old).opened Script ≡ true }
    requires fresh { script.old.line ≡ 0 }
    requires goes_on { MayGoOn script.old }
    requires running { script.old.halted ≡ false }
    requires admitted { AreAdmitted limits.now (library_of script.old.base (I.state host.old))
        (I.admits host.old Role.Shapes) (P.admits patterns.old)
        (option_map (script_lines limits.now.script) ((I.state host.old).rest Script)) }
    ensures serves { (manner : Manner) (s : ScriptState) → manner.limits ≡ limits.now
        → IsScriptRun manner.limits manner.format s script.old
        → LinesAreReadAt manner s limits.now.script ((I.state host.old).rest Script)
        → ServesScript manner (library_of script.old.base (I.state host.old)) s limits.now.script
        (end_status result)
        (outside (I.state host.old) (O.state out.old) (P.state patterns.old) nested.old steps.old)
        (outside (I.state host.new) (O.state out.new) (P.state patterns.new) nested.new steps.new) }
    ensures causes { Ends None (end_status result)
        (outside (I.state host.old) (O.state out.old) (P.state patterns.old) nested.old steps.old)
        (outside (I.state host.new) (O.state out.new) (P.state patterns.new) nested.new steps.new) }
    ensures patterns { EndsByPattern script.old.format (end_status result)
        (outside (I.state host.old) (O.state out.old) (P.state patterns.old) nested.old steps.old)
        (outside (I.state host.new) (O.state out.new) (P.state patterns.new) nested.new steps.new)
        ⊎ IsCutShort (end_status result) }
    ensures refusals { (P.state patterns.old).faults ≤ (P.state patterns.new).faults }
    ensures read { IsAnswered (end_status result)
        → (Rose (P.state patterns.old).faults (P.state patterns.new).faults → ⊥)
        → (end : State) → HasNamesOf end script.old.document
        → HaveReadings limits.now end limits.now.script ((I.state host.old).rest Script) }
    ensures read_to_end { IsReported (end_status result) → IsAtEnd ((I.state host.new).rest Script) }
    ensures within { TakesWithin ((I.state host.old).rest Script) ((I.state host.new).rest Script)
        limits.now.script }
    ensures opens { (I.state host.new).opens Script ≡ (I.state host.old).opens Script }
    ensures whole { (I.state host.new).whole Script ≡ (I.state host.old).whole Script }
    ensures inputs { ServesInputs limits.now (I.state host.old) (I.state host.new) (end_status result) }
    ensures words { end_status result ≢ Status.BadWords }
{
    let mut reader = ScriptReader::new(limits.script);
    loop {
        let taken = take_line(
            alloc,
            &mut reader,
            script,
            host,
            patterns,
            limits,
            nested,
            steps,
        )?;
        match &taken {
            Taken::Replied(reply) => {
                write_reply(reply, script, out)?;
                if script.halted {
                    return Ok(Status::Refused);
                }
            }
            Taken::End { past } => return end_script(script, *past, out),
        }
    }
}

// How a script ends of which no line is left, since it is at its end or past its limit.
fn end_script<O: Sink>(script: &ScriptRun, past: bool, out: &mut O) -> Result<Status, Stop>
    ensures ends { (manner : Manner) (s : ScriptState) (at : Outside)
        → IsScriptRun manner.limits manner.format s script.now
        → Ends (Some (end_of_script manner.format past s)) (end_status result)
        (record at { sink = O.state out.old }) (record at { sink = O.state out.new }) }
    ensures causes { (at : Outside) → Ends None (end_status result)
        (record at { sink = O.state out.old }) (record at { sink = O.state out.new }) }
    ensures reported { IsReported (end_status result) → past ≡ false }
    ensures output { end_status result ≢ InputFault }
    ensures words { end_status result ≢ Status.BadWords }
{
    if past {
        let answer = Answer::TooLong { role: Role::Script };
        return refuse(&answer, script.engine.view().pool(), script.format, out);
    }
    write_dropped(script, out)?;
    Ok(status_of_script(script))
}

// Writes that a group was open at the end of the script, where one was.
fn write_dropped<O: Sink>(script: &ScriptRun, out: &mut O) -> Result<(), WriteFault>
    ensures { Writes (O.state out.old) (O.state out.new)
        (open_notice script.now.format script.now.engine.graph.terms script.now.group) result }
{
    if script.group.is_none() {
        return Ok(());
    }
    write_answer(
        &Answer::GroupDropped,
        script.engine.view().pool(),
        script.format,
        out,
    )
}
