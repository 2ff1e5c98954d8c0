ghost use Rattle.std.specs.Prelude.{◌≡◌, ◌≢◌, ◌⊎◌, [], None, Some, IfSome};
ghost use Rattle.iri_resolve.specs.Resolution.{IsAbsolute};
ghost use Rattle.shx_term.specs.Limits.{AreUsable};
ghost use Rattle.report_write.specs.declared.answer.Answer.TheVariants.{Usage};
ghost use Rattle.shx_term.specs.Vocabulary.{vocabulary};
ghost use Rattle.shacl_run.specs.declared.status.Status.TheVariants.{BadWords, InputFault};
ghost use Rattle.shacl_run.specs.Loads.{LoadsAreAdmitted};
ghost use Rattle.shacl_run.specs.Outside.{Outside, outside};
ghost use Rattle.shacl_run.specs.Readings.{Readings};
ghost use Rattle.shacl_run.specs.Run.{answer_output, words_format};
ghost use Rattle.shacl_run.specs.RunClauses.{IsRead, IsRun, OpensInTurn, PatternsAreAdmittedBy, ReadsAll};
ghost use Rattle.shacl_run.specs.RunClauses.{ShapesAreReadBy, StaysWithin};
ghost use Rattle.shacl_run.specs.Status.{IsAnswered, IsCutShort, IsReported};
ghost use Rattle.command_words.specs.Asked.{asked_of};
ghost use Rattle.command_words.specs.Words.{command_words};
ghost use Rattle.text_output.specs.declared.format.Format.TheVariants.{Lines};
ghost use Rattle.shacl_run.specs.Admits.{AdmitsFiles};
ghost use Rattle.shacl_run.specs.inner.Ends.{Ends, EndsByPattern};
ghost use Rattle.shacl_run.specs.inner.Files.{FilesAreRead, RunsFiles, RunsWords};
ghost use Rattle.shacl_run.specs.inner.Stops.{end_status};

use crate::ending::{refuse, status_of_stop};
use crate::prepare::prepare;
use crate::run_validation::run_validation;
use crate::status::Status;
use command_words::{Asked, read_words, word_texts};
use report_write::{Answer, Format, write_answer};
use shape_text::{Stop, Unopened};
use shx_outside::{Inputs, PatternHost, Sink};
use shx_term::{IriText, Limits, Pool, Steps, TermKeys, Text};
use std::alloc::Global;
use std::sync::ledger::Ledger;

/// Runs the validator: reads the texts that the words name, writes the report of the data, or the usage, or
/// the fault of a text, and then answers a script line by line. The report is kept current: an edit evaluates
/// the pairs that it touches and no others. `steps` counts the evaluations of shapes at their target nodes,
/// and `nested` those of shapes at value nodes that other shapes ask about: each is evaluated once, and again
/// only where an edit touches what it has read.
///
/// The terms are found by a hash under `keys`; nothing that a run writes or answers depends on them.
///
/// A text is read in pieces, and past its limit one byte is taken and no more. A report is put in few large
/// pieces. The answer to a line is put before the next line is waited for.
pub fn run<H: Inputs, O: Sink, P: PatternHost, K: Ledger, L: Ledger>(
    alloc: Global,
    words: &[Text],
    host: &mut H,
    out: &mut O,
    patterns: &mut P,
    limits: &Limits,
    keys: TermKeys,
    nested: &mut Steps<K>,
    steps: &mut Steps<L>,
) -> Status
    requires limits { AreUsable limits.now }
    requires admitted { AdmitsFiles (H.admits host.old) (command_words words.now) }
    requires patterns { PatternsAreAdmittedBy limits.now (command_words words.now) (H.state host.old).text
        (P.admits patterns.old) }
    requires loads { LoadsAreAdmitted limits.now (command_words words.now) (H.state host.old).text
        (H.admits host.old) (P.admits patterns.old) }
    ensures { IsRun limits.now words.now
        (outside (H.state host.old) (O.state out.old) (P.state patterns.old) nested.old steps.old)
        (outside (H.state host.new) (O.state out.new) (P.state patterns.new) nested.new steps.new) result }
{
    match run_words(
        alloc, words, host, out, patterns, limits, keys, nested, steps,
    ) {
        Ok(status) => status,
        Err(stop) => status_of_stop(stop),
    }
}

fn run_words<H: Inputs, O: Sink, P: PatternHost, K: Ledger, L: Ledger>(
    alloc: Global,
    words: &[Text],
    host: &mut H,
    out: &mut O,
    patterns: &mut P,
    limits: &Limits,
    keys: TermKeys,
    nested: &mut Steps<K>,
    steps: &mut Steps<L>,
) -> Result<Status, Stop>
    requires limits { AreUsable limits.now }
    requires admitted { AdmitsFiles (H.admits host.old) (command_words words.now) }
    requires patterns { PatternsAreAdmittedBy limits.now (command_words words.now) (H.state host.old).text
        (P.admits patterns.old) }
    requires loads { LoadsAreAdmitted limits.now (command_words words.now) (H.state host.old).text
        (H.admits host.old) (P.admits patterns.old) }
    ensures runs { (readings : Readings)
        → ShapesAreReadBy limits.now readings (command_words words.now) (H.state host.old).text
        → RunsWords limits.now readings words.now
        (outside (H.state host.old) (O.state out.old) (P.state patterns.old) nested.old steps.old)
        (outside (H.state host.new) (O.state out.new) (P.state patterns.new) nested.new steps.new)
        (end_status result) }
    ensures causes { Ends None (end_status result)
        (outside (H.state host.old) (O.state out.old) (P.state patterns.old) nested.old steps.old)
        (outside (H.state host.new) (O.state out.new) (P.state patterns.new) nested.new steps.new) }
    ensures patterns { EndsByPattern (words_format (command_words words.now)) (end_status result)
        (outside (H.state host.old) (O.state out.old) (P.state patterns.old) nested.old steps.old)
        (outside (H.state host.new) (O.state out.new) (P.state patterns.new) nested.new steps.new)
        ⊎ IsCutShort (end_status result) }
    ensures read { IsAnswered (end_status result) → IsRead limits.now words.now
        (outside (H.state host.old) (O.state out.old) (P.state patterns.old) nested.old steps.old)
        (outside (H.state host.new) (O.state out.new) (P.state patterns.new) nested.new steps.new) }
    ensures read_to_end { IsReported (end_status result) → IfSome (command_words words.now)
        (λ asked. ReadsAll limits.now asked.files (H.state host.old) (H.state host.new)) }
    ensures opened { OpensInTurn (H.state host.old) (H.state host.new) (end_status result) }
    ensures within { StaysWithin limits.now (H.state host.old) (H.state host.new) }
{
    let pool = Pool::with_vocabulary(alloc, limits.terms, keys)?;
    let texts = word_texts(alloc, words)?;
    match read_words(alloc, &texts)? {
        Some(asked) => run_files(
            alloc, &asked, host, out, patterns, limits, pool, keys, nested, steps,
        ),
        None => refuse_words(&pool, out),
    }
}

// Writes the usage, with which the run ends.
fn refuse_words<O: Sink>(pool: &Pool, out: &mut O) -> Result<Status, Stop>
    ensures ends { (at : Outside) → Ends (Some (answer_output Lines [] Usage BadWords)) (end_status result)
        (record at { sink = O.state out.old }) (record at { sink = O.state out.new }) }
    ensures unreported { IsReported (end_status result) → ⊥ }
    ensures output { end_status result ≢ InputFault }
{
    write_answer(&Answer::Usage, pool, Format::Lines, out)?;
    Ok(Status::BadWords)
}

fn run_files<H: Inputs, O: Sink, P: PatternHost, K: Ledger, L: Ledger>(
    alloc: Global,
    asked: &Asked<'_>,
    host: &mut H,
    out: &mut O,
    patterns: &mut P,
    limits: &Limits,
    pool: Pool,
    keys: TermKeys,
    nested: &mut Steps<K>,
    steps: &mut Steps<L>,
) -> Result<Status, Stop>
    requires limits { AreUsable limits.now }
    requires absolute { IsAbsolute asked.now.base.now }
    requires admitted { AdmitsFiles (H.admits host.old) (Some (asked_of asked.now)) }
    requires patterns { PatternsAreAdmittedBy limits.now (Some (asked_of asked.now)) (H.state host.old).text
        (P.admits patterns.old) }
    requires loads { LoadsAreAdmitted limits.now (Some (asked_of asked.now)) (H.state host.old).text
        (H.admits host.old) (P.admits patterns.old) }
    requires fresh { pool.terms ≡ vocabulary }
    requires limit { pool.limit ≡ limits.now.terms }
    ensures runs { (readings : Readings)
        → ShapesAreReadBy limits.now readings (Some (asked_of asked.now)) (H.state host.old).text
        → RunsFiles limits.now readings (asked_of asked.now)
        (outside (H.state host.old) (O.state out.old) (P.state patterns.old) nested.old steps.old)
        (outside (H.state host.new) (O.state out.new) (P.state patterns.new) nested.new steps.new)
        (end_status result) }
    ensures causes { Ends None (end_status result)
        (outside (H.state host.old) (O.state out.old) (P.state patterns.old) nested.old steps.old)
        (outside (H.state host.new) (O.state out.new) (P.state patterns.new) nested.new steps.new) }
    ensures patterns { EndsByPattern asked.now.format (end_status result)
        (outside (H.state host.old) (O.state out.old) (P.state patterns.old) nested.old steps.old)
        (outside (H.state host.new) (O.state out.new) (P.state patterns.new) nested.new steps.new)
        ⊎ IsCutShort (end_status result) }
    ensures read { IsAnswered (end_status result) → FilesAreRead limits.now (asked_of asked.now)
        (outside (H.state host.old) (O.state out.old) (P.state patterns.old) nested.old steps.old)
        (outside (H.state host.new) (O.state out.new) (P.state patterns.new) nested.new steps.new) }
    ensures read_to_end { IsReported (end_status result)
        → ReadsAll limits.now (asked_of asked.now).files (H.state host.old) (H.state host.new) }
    ensures opened { OpensInTurn (H.state host.old) (H.state host.new) (end_status result) }
    ensures within { StaysWithin limits.now (H.state host.old) (H.state host.new) }
{
    let base = IriText::new(String::from_str(alloc, asked.base)?);
    match prepare(alloc, asked, &base, host, patterns, limits, pool) {
        Ok(validation) => {
            run_validation(
                alloc,
                validation,
                asked.script_file,
                host,
                out,
                patterns,
                base,
                keys,
                limits,
                nested,
                steps,
            )
        }
        Err(Unopened::Told { answer, pool }) => refuse(&answer, &pool, asked.format, out),
        Err(Unopened::Cut(stop)) => Err(stop),
    }
}
