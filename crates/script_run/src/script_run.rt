ghost use Rattle.std.specs.Prelude.{◌≡◌, false, IfOk, OnOk};
ghost use Rattle.iri_resolve.specs.Resolution.{IsAbsolute};
ghost use Rattle.shx_term.specs.Limits.{AreUsable};
ghost use Rattle.shx_term.specs.declared.limits.Limits.{Limits as LimitsOf};
ghost use Rattle.text_output.specs.declared.format.Format.{Format as FormatOf};
ghost use Rattle.script_run.specs.Manner.{Manner};
ghost use Rattle.script_run.specs.Script.{first_work};
ghost use Rattle.script_run.specs.Script.{count_answer};
ghost use Rattle.script_run.specs.ScriptState.{ScriptState};
ghost use Rattle.script_run.specs.Work.{and_then, evaluating};
ghost use Rattle.script_run.specs.Stored.{IsScriptRun, IsValidation, MayGoOn, Stands};

use crate::stored_graph::StoredGraph;
use crate::validation::Validation;
use edit_engine::{Edit, Engine, changes_can_be_taken_back, same_graphs_answer_alike};
use edit_history::History;
use graph_view::GraphView;
use report_write::Answer;
use shx_term::{IriText, Limits, Memory, Steps, TermKeys};
use std::alloc::Global;
use std::sync::ledger::Ledger;
use text_output::Format;
use ttl_read::Document;

/// A script that is being answered: the report is kept current by an engine, and it is known how far the
/// script has come.
pub struct ScriptRun {
    pub engine: Engine<StoredGraph>,
    /// The edits of the open group, where one is open.
    pub group: Option<Vec<Edit>>,
    /// The changes that can be taken back, and made again.
    pub history: History,
    /// The data text without its triples: the base, the prefixes and the blank nodes at its end.
    pub document: Document,
    /// The base of the texts.
    pub base: IriText,
    /// How the terms of a pool are found.
    pub keys: TermKeys,
    /// How answers are written.
    pub format: Format,
    /// How many lines of the script were answered.
    pub line: u64,
    /// Whether one of them was refused.
    pub refused: bool,
    /// Whether the script has ended with a line, since the pattern host refused a pattern.
    pub halted: bool,
}

// A derived drop is no call: each place where one ends would split into one path for each of its parts.
impl Drop for ScriptRun {
    fn drop(self) {
        let ScriptRun {
            engine: _engine,
            group: _group,
            history: _history,
            document: _document,
            base: _base,
            keys: _keys,
            format: _format,
            line: _line,
            refused: _refused,
            halted: _halted,
        } = self;
    }
}

impl ScriptRun {
    /// Before the first line: each pair of the validation is evaluated, and each nested one, and what they
    /// come to is kept.
    pub fn open<K: Ledger, L: Ledger>(
        alloc: Global,
        validation: Validation,
        base: IriText,
        keys: TermKeys,
        limits: &Limits,
        nested: &mut Steps<K>,
        steps: &mut Steps<L>,
    ) -> Result<ScriptRun, Memory>
        requires stands { Stands validation }
        requires limits { AreUsable limits.now }
        requires absolute { IsAbsolute base }
        ensures opened { (within : LimitsOf) (format : FormatOf) (s : ScriptState)
            → within.history ≡ limits.now.history → IsValidation within format s validation
            → IfOk result (IsScriptRun within format s) }
        ensures goes_on { IfOk result MayGoOn }
        ensures names { IfOk result (λ script. script.document ≡ validation.document) }
        ensures base { IfOk result (λ script. script.base ≡ base) }
        ensures running { IfOk result (λ script. script.halted ≡ false) }
        ensures format { IfOk result (λ script. script.format ≡ validation.format) }
        ensures line { IfOk result (λ script. script.line ≡ 0) }
        ensures work { (limits : LimitsOf) (format : FormatOf) (s : ScriptState)
            → IsValidation limits format s validation
            → OnOk result (evaluating steps.new nested.new
            ≡ and_then (evaluating steps.old nested.old) (first_work s)) }
    {
        // The order in which the graph is stored makes no difference.
        same_graphs_answer_alike();
        changes_can_be_taken_back();
        let Validation {
            graph,
            document,
            plan,
            format,
            ..
        } = validation;
        let engine = Engine::open(alloc, plan, graph, nested, steps)?;
        Ok(ScriptRun {
            engine,
            group: None,
            history: History::new(alloc, limits.history),
            document,
            base,
            keys,
            format,
            line: 0,
            refused: false,
            halted: false,
        })
    }

    /// The counts of the graph as it is now. They are kept, so this takes constant time and no memory.
    pub fn count(&self) -> Answer
        ensures { (manner : Manner) (s : ScriptState) → IsScriptRun manner.limits manner.format s self.now
            → result ≡ count_answer s }
    {
        same_graphs_answer_alike();
        Answer::Count {
            triples: self.engine.view().len(),
            pairs: self.engine.pair_count(),
            results: self.engine.result_count(),
        }
    }
}
