//! What is due without a script: a law, which does nothing when called.
ghost use Rattle.std.specs.Prelude.{◌≡◌, ℕ, List, Option, Some, None};
ghost use Rattle.shx_term.specs.declared.limits.Limits.{Limits as LimitsOf};
ghost use Rattle.command_words.specs.Asked.{Asked};
ghost use Rattle.command_words.specs.Words.{command_words};
ghost use Rattle.script_run.specs.Load.{Load};
ghost use Rattle.script_run.specs.ScriptState.{ScriptState};
ghost use Rattle.shape_text.specs.Verdict.{Verdict};
ghost use Rattle.shacl_run.specs.Readings.{Readings};
ghost use Rattle.shacl_run.specs.ReportAlone.{IsReportAlone};
ghost use Rattle.shacl_run.specs.Run.{Output, opening, run_output};
ghost use Rattle.shacl_run.specs.Run.Opening.{opens};

/// Where the words name no script, and the texts come to a state, its report is all that is due; and the
/// status is 0 exactly where that report has no results, 1 exactly where it has some.
pub fn a_report_alone_tells_its_status()
    ensures { (limits : LimitsOf) (readings : Readings) (verdict : Verdict) (loads : List Load)
        (words : List (List ℕ)) (asked : Asked) (texts : List ℕ → Option (List ℕ)) (notices : ℕ)
        (s : ScriptState) (output : Output) → command_words words ≡ Some asked
        → asked.files.script_file ≡ None → opening readings verdict words texts ≡ Some (opens notices s)
        → run_output limits readings verdict loads words texts ≡ Some output
        → IsReportAlone asked.format notices s output }
{}
