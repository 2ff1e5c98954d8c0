ghost use Rattle.std.specs.Prelude.{◌≡◌, ◌≢◌, ◌+◌, ◌<◌, ◌^◌, true, false};
ghost use Rattle.std.specs.Prelude.{IfOk, IfErr, OnOk, OnErr};
ghost use Rattle.std.specs.Option.{option_map};
ghost use Rattle.shx_outside.specs.declared.role.Role.TheVariants.{Script};
ghost use Rattle.shx_outside.specs.Told.{IsAtEnd, StaysAdmitted};
ghost use Rattle.shx_term.specs.Limits.{AreUsable};
ghost use Rattle.ttl_meaning.specs.State.{State};
ghost use Rattle.text_input.specs.Lines.{script_lines};
ghost use Rattle.text_input.specs.ScriptReader.{left_of, GoesOn, MetEnd, ReadsLine, StopsInLine};
ghost use Rattle.shape_text.specs.Names.{HasNamesOf};
ghost use Rattle.shape_text.specs.Stops.{StopCause};
ghost use Rattle.script_run.specs.Admitted.{AreAdmitted};
ghost use Rattle.script_run.specs.Hosts.{ReadsShapesOut};
ghost use Rattle.script_run.specs.Loaded.{library_of};
ghost use Rattle.script_run.specs.Manner.{Manner};
ghost use Rattle.script_run.specs.ScriptState.{ScriptState};
ghost use Rattle.script_run.specs.Stored.{IsScriptRun, MayGoOn};
ghost use Rattle.script_run.specs.Work.{NoneFell, evaluating};
ghost use Rattle.shacl_run.specs.inner.Serving.{GivesReadings, LinesAreReadAt, OnReplied, ServesOn};
ghost use Rattle.shacl_run.specs.inner.Serving.{StopsTaking, TakesLine, TakesPatterns};

use script_run::{Reply, ScriptRun, lines_are_read_once, refuse_line, reply_to};
use shape_text::Stop;
use shx_outside::{Inputs, PatternHost, Role};
use shx_term::fault_codes::LINE_TOO_LONG;
use shx_term::{Limits, Steps};
use std::alloc::Global;
use std::sync::ledger::Ledger;
use text_input::{Line, ReadFault, ScriptReader};

/// What came of a line.
pub enum Taken {
    Replied(Reply),
    /// There is no further line: at the end of the script, or past its limit.
    End { past: bool },
}

impl Drop for Taken {
    fn drop(self) {
        match self {
            Taken::Replied(_reply) => {}
            Taken::End { past: _past } => {}
        }
    }
}

/// Takes the next line of the script and does what it asks for.
pub fn take_line<I: Inputs, P: PatternHost, K: Ledger, L: Ledger>(
    alloc: Global,
    reader: &mut ScriptReader,
    script: &mut ScriptRun,
    host: &mut I,
    patterns: &mut P,
    limits: &Limits,
    nested: &mut Steps<K>,
    steps: &mut Steps<L>,
) -> Result<Taken, Stop>
    requires usable { AreUsable limits.now }
    requires opened { (I.state host.old).opened Script ≡ true }
    requires met { MetEnd reader.old.ended ((I.state host.old).rest Script) }
    requires few { script.old.line + reader.old.budget < 2 ^ 64 }
    requires goes_on { MayGoOn script.old }
    requires running { script.old.halted ≡ false }
    requires admitted { AreAdmitted limits.now (library_of script.old.base (I.state host.old))
        (I.admits host.old Role.Shapes) (P.admits patterns.old)
        (option_map (script_lines reader.old.budget) (left_of reader.old ((I.state host.old).rest Script))) }
    ensures taken { (manner : Manner) (s : ScriptState) → manner.limits ≡ limits.now
        → IsScriptRun manner.limits manner.format s script.old
        → LinesAreReadAt manner s reader.old.budget (left_of reader.old ((I.state host.old).rest Script))
        → IfOk result (TakesLine manner (library_of script.old.base (I.state host.old)) s script.new
        (P.state patterns.new).refused (evaluating steps.old nested.old) (evaluating steps.new nested.new)
        reader.old reader.new (left_of reader.old ((I.state host.old).rest Script))
        (left_of reader.new ((I.state host.new).rest Script))) }
    ensures goes_on_still { OnOk result (MayGoOn script.new) }
    ensures admitted_still { IfOk result (OnReplied (AreAdmitted limits.now
        (library_of script.new.base (I.state host.new)) (I.admits host.new Role.Shapes)
        (P.admits patterns.new) (option_map (script_lines reader.new.budget)
        (left_of reader.new ((I.state host.new).rest Script))))) }
    ensures read { (end : State) → HasNamesOf end script.old.document
        → IfOk result (GivesReadings limits.now end reader.old reader.new
        ((I.state host.old).rest Script) ((I.state host.new).rest Script)) }
    ensures names { script.new.document ≡ script.old.document }
    ensures base { script.new.base ≡ script.old.base }
    ensures format { script.new.format ≡ script.old.format }
    ensures counted { IfOk result (OnReplied (script.new.line ≡ script.old.line + 1)) }
    ensures shorter { IfOk result (OnReplied (reader.new.budget < reader.old.budget)) }
    ensures end { IfOk result (λ taken. taken ≡ Taken.End false
        → IsAtEnd ((I.state host.new).rest Script)) }
    ensures stopped { (manner : Manner) (s : ScriptState) → manner.limits ≡ limits.now
        → IsScriptRun manner.limits manner.format s script.old
        → LinesAreReadAt manner s reader.old.budget (left_of reader.old ((I.state host.old).rest Script))
        → IfErr result (λ stop. stop ≡ Stop.Input → StopsTaking manner s reader.old.ended
        (left_of reader.old ((I.state host.old).rest Script)) ((I.state host.new).rest Script)) }
    ensures inputs { ServesOn limits.now reader.old (I.state host.old) reader.new (I.state host.new) }
    ensures shapes_out { OnOk result (ReadsShapesOut limits.now.text (I.state host.old)
        → ReadsShapesOut limits.now.text (I.state host.new)) }
    ensures patterns { IfOk result (TakesPatterns (P.state patterns.old).faults (P.state patterns.new).faults
        script.new.halted) }
    ensures patterns_still { OnErr result ((P.state patterns.new).faults ≡ (P.state patterns.old).faults) }
    ensures cause { StopCause (I.state host.old).faults (I.state host.new).faults result }
    ensures risen { OnOk result
        (NoneFell (evaluating steps.old nested.old) (evaluating steps.new nested.new)) }
{
    // So its reading is the one that was told.
    lines_are_read_once();
    let line = next_line(alloc, reader, host, limits)?;
    match &line {
        Line::Is(bytes) => {
            let reply = reply_to(alloc, script, bytes, host, patterns, limits, nested, steps)?;
            Ok(Taken::Replied(reply))
        }
        Line::TooLong => Ok(Taken::Replied(refuse_line(script, LINE_TOO_LONG, None))),
        Line::End => Ok(Taken::End { past: false }),
        Line::PastLimit => Ok(Taken::End { past: true }),
    }
}

// The next line. A line that is too long is no fault of the inputs.
fn next_line<I: Inputs>(
    alloc: Global,
    reader: &mut ScriptReader,
    host: &mut I,
    limits: &Limits,
) -> Result<Line, Stop>
    requires opened { (I.state host.old).opened Script ≡ true }
    requires met { MetEnd reader.old.ended ((I.state host.old).rest Script) }
    ensures line { IfOk result (ReadsLine reader.old ((I.state host.old).rest Script)
        reader.new ((I.state host.new).rest Script) limits.now.line) }
    ensures stopped { IfErr result (λ stop. stop ≡ Stop.Input
        → StopsInLine (left_of reader.old ((I.state host.old).rest Script)) reader.new
        ((I.state host.new).rest Script)) }
    ensures going { reader.old.ended ≡ true → IfErr result (λ stop. stop ≢ Stop.Input) }
    ensures goes_on { GoesOn reader.old (I.state host.old) reader.new (I.state host.new) }
    ensures admitted { StaysAdmitted (I.admits host.old) (I.admits host.new) }
    ensures cause { StopCause (I.state host.old).faults (I.state host.new).faults result }
{
    match reader.next_line(alloc, host, limits.line) {
        Ok(line) => Ok(line),
        Err(ReadFault::Input) => Err(Stop::Input),
        Err(ReadFault::Memory) => Err(Stop::Memory),
        Err(ReadFault::TooLong) => unreachable!(),
    }
}
