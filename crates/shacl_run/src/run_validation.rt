//! The report of a validation, and then its script.
ghost use Rattle.std.specs.Prelude.{◌≡◌, ◌≢◌, ◌⊎◌, ◌+◌, ◌≤◌, ◌++◌, ℕ, List, None, Some, length, map};
ghost use Rattle.std.specs.Borrow.{Bor};
ghost use Rattle.std.specs.Iterator.{Drains, IsFinite};
ghost use Rattle.std.specs.Option.{option_map};
ghost use Rattle.iri_resolve.specs.Resolution.{IsAbsolute};
ghost use Rattle.comp_core.specs.declared.row.ResultRow.{ResultRow as row_type};
ghost use Rattle.shx_outside.specs.Counted.{Rose};
ghost use Rattle.shx_outside.specs.declared.role.Role.TheVariants.{Script};
ghost use Rattle.shx_outside.specs.Told.{IsAtEnd};
ghost use Rattle.shx_term.specs.Limits.{AreUsable};
ghost use Rattle.shx_term.specs.declared.limits.Limits.{Limits as LimitsOf};
ghost use Rattle.text_input.specs.Lines.{script_lines};
ghost use Rattle.text_input.specs.TextRead.{TakesWithin};
ghost use Rattle.report_write.specs.ReportTexts.{report_text};
ghost use Rattle.shape_eval.specs.Planned.{plan_of};
ghost use Rattle.shape_text.specs.Names.{HasNamesOf};
ghost use Rattle.text_output.specs.declared.format.Format.{Format as FormatOf};
ghost use Rattle.text_output.specs.Writes.{Writes};
ghost use Rattle.ttl_meaning.specs.State.{State};
ghost use Rattle.script_run.specs.Admitted.{AreAdmitted};
ghost use Rattle.script_run.specs.Loaded.{library_of};
ghost use Rattle.script_run.specs.Manner.{Manner};
ghost use Rattle.script_run.specs.ScriptState.{ScriptState};
ghost use Rattle.script_run.specs.Stored.{IsScriptRun, IsValidation, Stands};
ghost use Rattle.script_run.specs.Work.{evaluating};
ghost use Rattle.shacl_run.specs.Admits.{AdmitsScript};
ghost use Rattle.shacl_run.specs.Outside.{outside};
ghost use Rattle.shacl_run.specs.Run.{first_text, notice_text, script_text};
ghost use Rattle.shacl_run.specs.RunClauses.{IsOpenedBy, ScriptIsOpened};
ghost use Rattle.shacl_run.specs.Status.{IsAnswered, IsCutShort, IsReported};
ghost use Rattle.shacl_run.specs.inner.Ends.{Ends, EndsByPattern};
ghost use Rattle.shacl_run.specs.inner.Serving.{HaveReadings, LinesAreReadAt, PutsReport, RunsScript};
ghost use Rattle.shacl_run.specs.inner.Serving.{ServesInputs};
ghost use Rattle.shacl_run.specs.inner.Stops.{end_status};

use crate::ending::status_of_rows;
use crate::evaluation::report_of;
use crate::serve::serve;
use crate::status::Status;
use comp_core::ResultRow;
use edit_engine::same_graphs_answer_alike;
use graph_view::GraphView;
use report_write::{Answer, Format, add_answer, add_head, add_rows, add_tail};
use script_run::{ScriptRun, Validation};
use shape_eval::Plan;
use shape_text::Stop;
use shx_outside::{Inputs, PatternHost, Role, Sink};
use shx_term::{IriText, Limits, Pieces, Pool, Steps, TermKeys};
use std::alloc::Global;
use std::sync::ledger::Ledger;
use text_output::{WriteFault, Writer};

/// Writes the report, and then answers the script where the words name one. Only for a script more is kept
/// of an evaluation than its results.
pub fn run_validation<I: Inputs, O: Sink, P: PatternHost, K: Ledger, L: Ledger>(
    alloc: Global,
    validation: Validation,
    script: Option<&str>,
    host: &mut I,
    out: &mut O,
    patterns: &mut P,
    base: IriText,
    keys: TermKeys,
    limits: &Limits,
    nested: &mut Steps<K>,
    steps: &mut Steps<L>,
) -> Result<Status, Stop>
    requires stands { Stands validation }
    requires limits { AreUsable limits.now }
    requires absolute { IsAbsolute base }
    requires admitted { AdmitsScript (I.admits host.old) (option_map (λ name. name.now) script) }
    requires loads { AreAdmitted limits.now (library_of base (I.state host.old))
        (I.admits host.old Role.Shapes) (P.admits patterns.old) (option_map (script_lines limits.now.script)
        (script_text (I.state host.old).text (option_map (λ name. name.now) script))) }
    ensures serves { (manner : Manner) (s : ScriptState) → manner.limits ≡ limits.now
        → IsValidation manner.limits manner.format s validation
        → LinesAreReadAt manner s limits.now.script
        (script_text (I.state host.old).text (option_map (λ name. name.now) script.entry))
        → RunsScript manner (library_of base (I.state host.old)) validation.passed_over s
        (script_text (I.state host.old).text (option_map (λ name. name.now) script.entry))
        (end_status result)
        (outside (I.state host.old) (O.state out.old) (P.state patterns.old) nested.old steps.old)
        (outside (I.state host.new) (O.state out.new) (P.state patterns.new) nested.new steps.new) }
    ensures causes { (limits : LimitsOf) (s : ScriptState)
        → IsValidation limits validation.format s validation → Ends None (end_status result)
        (outside (I.state host.old) (O.state out.old) (P.state patterns.old) nested.old steps.old)
        (outside (I.state host.new) (O.state out.new) (P.state patterns.new) nested.new steps.new) }
    ensures patterns { EndsByPattern validation.format (end_status result)
        (outside (I.state host.old) (O.state out.old) (P.state patterns.old) nested.old steps.old)
        (outside (I.state host.new) (O.state out.new) (P.state patterns.new) nested.new steps.new)
        ⊎ IsCutShort (end_status result) }
    ensures refusals { (P.state patterns.old).faults ≤ (P.state patterns.new).faults }
    ensures read { IsAnswered (end_status result)
        → (Rose (P.state patterns.old).faults (P.state patterns.new).faults → ⊥)
        → (end : State) → HasNamesOf end validation.document
        → HaveReadings limits.now end limits.now.script
        (script_text (I.state host.old).text (option_map (λ name. name.now) script.entry)) }
    ensures read_to_end { IsReported (end_status result)
        → IsOpenedBy (I.state host.old) (I.state host.new) Script → IsAtEnd ((I.state host.new).rest Script) }
    ensures opened { IsReported (end_status result)
        → ScriptIsOpened (option_map (λ name. name.now) script.entry) (I.state host.old) (I.state host.new) }
    ensures within { IsOpenedBy (I.state host.old) (I.state host.new) Script
        → TakesWithin ((I.state host.new).whole Script) ((I.state host.new).rest Script) limits.now.script }
    ensures once { (I.state host.new).opens Script ≤ (I.state host.old).opens Script + 1 }
    ensures inputs { ServesInputs limits.now (I.state host.old) (I.state host.new) (end_status result) }
    ensures words { end_status result ≢ Status.BadWords }
{
    match script {
        Some(name) => run_script(
            alloc, validation, name, host, out, patterns, base, keys, limits, nested, steps,
        ),
        None => put_report(alloc, &validation, out, nested, steps),
    }
}

// Writes the report, and then answers the script of this name.
fn run_script<I: Inputs, O: Sink, P: PatternHost, K: Ledger, L: Ledger>(
    alloc: Global,
    validation: Validation,
    name: &str,
    host: &mut I,
    out: &mut O,
    patterns: &mut P,
    base: IriText,
    keys: TermKeys,
    limits: &Limits,
    nested: &mut Steps<K>,
    steps: &mut Steps<L>,
) -> Result<Status, Stop>
    requires stands { Stands validation }
    requires limits { AreUsable limits.now }
    requires absolute { IsAbsolute base }
    requires admitted { I.admits host.old Script name.now }
    requires loads { AreAdmitted limits.now (library_of base (I.state host.old))
        (I.admits host.old Role.Shapes) (P.admits patterns.old)
        (option_map (script_lines limits.now.script) ((I.state host.old).text name.now)) }
    ensures serves { (manner : Manner) (s : ScriptState) → manner.limits ≡ limits.now
        → IsValidation manner.limits manner.format s validation
        → LinesAreReadAt manner s limits.now.script ((I.state host.old).text name.now)
        → RunsScript manner (library_of base (I.state host.old)) validation.passed_over s
        ((I.state host.old).text name.now) (end_status result)
        (outside (I.state host.old) (O.state out.old) (P.state patterns.old) nested.old steps.old)
        (outside (I.state host.new) (O.state out.new) (P.state patterns.new) nested.new steps.new) }
    ensures causes { (limits : LimitsOf) (s : ScriptState)
        → IsValidation limits validation.format s validation → Ends None (end_status result)
        (outside (I.state host.old) (O.state out.old) (P.state patterns.old) nested.old steps.old)
        (outside (I.state host.new) (O.state out.new) (P.state patterns.new) nested.new steps.new) }
    ensures patterns { EndsByPattern validation.format (end_status result)
        (outside (I.state host.old) (O.state out.old) (P.state patterns.old) nested.old steps.old)
        (outside (I.state host.new) (O.state out.new) (P.state patterns.new) nested.new steps.new)
        ⊎ IsCutShort (end_status result) }
    ensures refusals { (P.state patterns.old).faults ≤ (P.state patterns.new).faults }
    ensures read { IsAnswered (end_status result)
        → (Rose (P.state patterns.old).faults (P.state patterns.new).faults → ⊥)
        → (end : State) → HasNamesOf end validation.document
        → HaveReadings limits.now end limits.now.script ((I.state host.old).text name.now) }
    ensures read_to_end { IsReported (end_status result)
        → IsOpenedBy (I.state host.old) (I.state host.new) Script → IsAtEnd ((I.state host.new).rest Script) }
    ensures opened { IsReported (end_status result)
        → ScriptIsOpened (Some name.now) (I.state host.old) (I.state host.new) }
    ensures within { IsOpenedBy (I.state host.old) (I.state host.new) Script
        → TakesWithin ((I.state host.new).whole Script) ((I.state host.new).rest Script) limits.now.script }
    ensures once { (I.state host.new).opens Script ≤ (I.state host.old).opens Script + 1 }
    ensures inputs { ServesInputs limits.now (I.state host.old) (I.state host.new) (end_status result) }
    ensures words { end_status result ≢ Status.BadWords }
{
    let passed_over = validation.passed_over;
    let mut script = ScriptRun::open(alloc, validation, base, keys, limits, nested, steps)?;
    write_current(passed_over, &script, out)?;
    host.open(Role::Script, name)?;
    serve(
        alloc,
        &mut script,
        host,
        out,
        patterns,
        limits,
        nested,
        steps,
    )
}

// Writes the report behind its notice, and answers how the run ends with it.
fn put_report<O: Sink, K: Ledger, L: Ledger>(
    alloc: Global,
    validation: &Validation,
    out: &mut O,
    nested: &mut Steps<K>,
    steps: &mut Steps<L>,
) -> Result<Status, Stop>
    requires { Stands validation.now }
    ensures puts { (limits : LimitsOf) (s : ScriptState)
        → IsValidation limits validation.now.format s validation.now
        → PutsReport validation.now.format validation.now.passed_over s (O.state out.old) (O.state out.new)
        (evaluating steps.old nested.old) (evaluating steps.new nested.new) result }
    ensures words { end_status result ≢ Status.BadWords }
{
    let rows = report_of(alloc, validation, nested, steps)?;
    let pool = validation.graph.pool();
    write_first(
        validation.passed_over,
        rows.iter(),
        rows.len() as u64,
        &validation.plan,
        pool,
        validation.format,
        out,
    )?;
    Ok(status_of_rows(&rows))
}

// The same of what is kept.
fn write_current<O: Sink>(
    passed_over: u64,
    script: &ScriptRun,
    out: &mut O,
) -> Result<(), WriteFault>
    ensures first { (limits : LimitsOf) (format : FormatOf) (s : ScriptState)
        → IsScriptRun limits format s script.now
        → Writes (O.state out.old) (O.state out.new) (first_text format passed_over s) result }
    ensures puts { (text : List ℕ) × Writes (O.state out.old) (O.state out.new) text result }
{
    // The graph may be stored in another order than the script's.
    same_graphs_answer_alike();
    let engine = &script.engine;
    let pool = engine.view().pool();
    let count = engine.result_count();
    write_first(
        passed_over,
        engine.rows(),
        count,
        engine.plan(),
        pool,
        script.format,
        out,
    )
}

// Puts the notice, and the report of so many results.
fn write_first<'a, I: Iterator<Item = &'a ResultRow>, O: Sink>(
    passed_over: u64,
    rows: I,
    count: u64,
    plan: &Plan,
    pool: &Pool,
    format: Format,
    out: &mut O,
) -> Result<(), WriteFault>
    requires can { I.can_next rows }
    requires ends { IsFinite (I.remaining rows) }
    requires counted { (items : List (Bor row_type)) → Drains I.next_gives rows items
        → length items ≡ count }
    ensures { (items : List (Bor row_type)) × Drains I.next_gives rows items
        × Writes (O.state out.old) (O.state out.new) (notice_text format passed_over
        ++ report_text format pool.now.terms (plan_of plan.now).shapes (map (λ row. row.now) items)) result }
{
    let mut writer = Writer::new(out);
    add_notice(passed_over, pool, format, &mut writer);
    add_head(count, format, &mut writer);
    add_rows(rows, plan, pool, format, &mut writer);
    add_tail(format, &mut writer);
    writer.finish()
}

// Adds that so many triples were passed over, where there are any.
fn add_notice<W: Pieces>(count: u64, pool: &Pool, format: Format, out: &mut W)
    ensures { W.added out.old out.new (notice_text format count) }
{
    if count == 0 {
        return;
    }
    add_answer(&Answer::Notice { count }, pool, format, out);
}
