//! How a run ends.
ghost use Rattle.std.specs.Prelude.{◌≡◌, ◌≢◌, Some};
ghost use Rattle.shacl_run.specs.inner.Ends.{Ends};
ghost use Rattle.shacl_run.specs.Outside.{Outside};
ghost use Rattle.shacl_run.specs.Run.{refused, status_of_rows, status_of_state};
ghost use Rattle.shacl_run.specs.Status.{IsReported};
ghost use Rattle.script_run.specs.Manner.{Manner};
ghost use Rattle.script_run.specs.ScriptState.{ScriptState};
ghost use Rattle.script_run.specs.Stored.{IsScriptRun};
ghost use Rattle.shacl_run.specs.inner.Stops.{end_status, stop_status};

use crate::status::Status;
use comp_core::ResultRow;
use edit_engine::same_graphs_answer_alike;
use report_write::{Answer, Format, write_answer};
use script_run::ScriptRun;
use shape_text::Stop;
use shx_outside::Sink;
use shx_term::Pool;

/// Writes the answer by which a text is refused, with which the run ends.
pub fn refuse<O: Sink>(
    answer: &Answer,
    pool: &Pool,
    format: Format,
    out: &mut O,
) -> Result<Status, Stop>
    ensures ends { (at : Outside) → Ends (Some (refused format pool.now.terms answer.now)) (end_status result)
        (record at { sink = O.state out.old }) (record at { sink = O.state out.new }) }
    ensures unreported { IsReported (end_status result) → ⊥ }
    ensures output { end_status result ≢ Status.InputFault }
    ensures words { end_status result ≢ Status.BadWords }
{
    write_answer(answer, pool, format, out)?;
    Ok(Status::Refused)
}

/// How a run ends that was cut short.
pub fn status_of_stop(stop: Stop) -> Status
    ensures { result ≡ stop_status stop }
{
    match stop {
        Stop::Input => Status::InputFault,
        Stop::Write => Status::WriteFault,
        Stop::Memory => Status::Memory,
    }
}

/// How a run ends that gave these results.
pub fn status_of_rows(rows: &[ResultRow]) -> Status
    ensures { result ≡ status_of_rows rows.now }
{
    if rows.is_empty() {
        Status::Conforms
    } else {
        Status::Violates
    }
}

/// How a run ends of whose script this was the last line.
pub fn status_of_script(script: &ScriptRun) -> Status
    ensures is { (manner : Manner) (s : ScriptState)
        → IsScriptRun manner.limits manner.format s script.now → result ≡ status_of_state s }
    ensures reported { IsReported result }
{
    same_graphs_answer_alike();
    let _ = script.engine.view();
    if script.refused {
        Status::LinesRefused
    } else if script.engine.conforms() {
        Status::Conforms
    } else {
        Status::Violates
    }
}
