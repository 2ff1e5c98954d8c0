//! What follows from the promise of a run where nothing outside fails: laws, which do nothing when called.
ghost use Rattle.std.specs.Prelude.{◌≡◌, ◌≢◌, ◌⊎◌, ℕ, List, Option, Some, false};
ghost use Rattle.shx_outside.specs.Outside.{FlaggedText};
ghost use Rattle.command_words.specs.Words.{command_words};
ghost use Rattle.shx_term.specs.declared.limits.Limits.{Limits as LimitsOf};
ghost use Rattle.shx_outside.specs.OpenTexts.{OpenTexts, texts_told};
ghost use Rattle.shacl_run.specs.declared.status.Status.{Status as StatusOf};
ghost use Rattle.shacl_run.specs.declared.status.Status.TheVariants.{InputFault, Memory, WriteFault};
ghost use Rattle.shacl_run.specs.Complete.{HasNoPattern, HasRoomByAny, IsComplete, IsUndisturbed};
ghost use Rattle.shacl_run.specs.Complete.{NothingFailed, WritesDefined};
ghost use Rattle.script_run.specs.Load.{Load};
ghost use Rattle.script_run.specs.Replies.{is_any_refused};
ghost use Rattle.shacl_run.specs.Loads.{AreLoaded};
ghost use Rattle.shacl_run.specs.Outside.{Outside};
ghost use Rattle.shape_text.specs.ShapesReadings.{AreJudged};
ghost use Rattle.shacl_run.specs.Readings.{Readings};
ghost use Rattle.shacl_run.specs.Run.{Output, run_output};
ghost use Rattle.shacl_run.specs.RunClauses.{IsRun, LinesAreReadBy, ShapesAreReadBy, words_shapes};
ghost use Rattle.shape_text.specs.Verdict.{Verdict, refuses_pattern};

/// Where nothing disturbs a run, it wants memory, or the defined output stands written and the run ended with
/// its status.
pub fn an_undisturbed_run_is_due()
    ensures { (limits : LimitsOf) (readings : Readings) (words : List (List ℕ)) (before after : Outside)
        (status : StatusOf) → IsRun limits words before after status
        → IsUndisturbed limits readings words before after
        → (status ≡ Memory) ⊎ WritesDefined limits readings words before after status }
{}

/// Where no count of failures rises, and none stands at its last value, a run answers as is due, or wants
/// memory.
pub fn runs_are_complete()
    ensures { (limits : LimitsOf) (words : List (List ℕ)) (before after : Outside) (status : StatusOf)
        → IsRun limits words before after status → NothingFailed before after
        → IsComplete limits words before after status }
{}

/// Over `HonestInputs`, whose count of failures is always 0, no run ends with a failure of the inputs.
pub fn honest_inputs_never_fail()
    ensures { (limits : LimitsOf) (words : List (List ℕ)) (before after : Outside) (status : StatusOf)
        (texts texts' : OpenTexts) → before.inputs ≡ texts_told 0 texts → after.inputs ≡ texts_told 0 texts'
        → IsRun limits words before after status → status ≢ InputFault }
{}

/// Where no shape states a pattern, the shapes come to no verdict by which a pattern is refused, and nor do
/// those of a text that the script loads.
pub fn no_pattern_is_never_refused()
    ensures shapes { (limits : LimitsOf) (words : List (List ℕ)) (before : Outside) (readings : Readings)
        → HasNoPattern limits readings words before → (verdict : Verdict)
        → AreJudged limits readings.shapes (words_shapes before.inputs.text (command_words words)) verdict
        → refuses_pattern verdict ≡ false }
    ensures loads { (limits : LimitsOf) (words : List (List ℕ)) (before : Outside) (readings : Readings)
        → HasNoPattern limits readings words before
        → (verdict : Verdict) (last : Option FlaggedText) (loads : List Load)
        → LinesAreReadBy limits readings verdict (command_words words) before.inputs.text
        → (output : Output) → run_output limits readings verdict loads words before.inputs.text ≡ Some output
        → AreLoaded ⊥ limits readings verdict last words before.inputs.text loads
        → is_any_refused loads ≡ false }
{}

/// A sink that fails only where its room is used up (`Roomy`) does not fail where it has room for what is
/// due.
pub fn a_roomy_sink_never_fails()
    ensures { (limits : LimitsOf) (words : List (List ℕ)) (before after : Outside) (status : StatusOf)
        (readings : Readings) → ShapesAreReadBy limits readings (command_words words) before.inputs.text
        → HasRoomByAny limits readings words before → IsRun limits words before after status
        → status ≢ WriteFault }
{}
