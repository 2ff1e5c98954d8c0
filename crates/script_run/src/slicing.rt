//! Why a node fails a shape, or does not.
ghost use Rattle.std.specs.Prelude.{◌≡◌, ◌<◌, ◌-◌, ◌^◌, IfOk};
ghost use Rattle.edit_engine.specs.NamedPairs.{pair_in};
ghost use Rattle.script_run.specs.Manner.{Manner};
ghost use Rattle.script_run.specs.Script.{slice_step};
ghost use Rattle.script_run.specs.ScriptState.{ScriptState};
ghost use Rattle.script_run.specs.Work.{Work};
ghost use Rattle.script_run.specs.Replies.{MovesOn, Replies};
ghost use Rattle.script_run.specs.Stored.{IsScriptRun, MayGoOn};

use crate::reply::{Reply, refuse_line, said};
use crate::script_run::ScriptRun;
use edit_engine::same_graphs_answer_alike;
use pair_slice::slice_of;
use shape_eval::results_depend_on_reads;
use shx_term::fault_codes::NO_PAIR;
use shx_term::{Memory, Term};
use std::alloc::Global;

/// Tells the triples on which the results of a shape at a node rest, by their terms; an open group has no
/// part in it.
pub fn slice(
    alloc: Global,
    script: &mut ScriptRun,
    shape: &Term,
    node: &Term,
) -> Result<Reply, Memory>
    requires few { script.old.line < 2 ^ 64 - 1 }
    requires goes_on { MayGoOn script.old }
    ensures replies { (manner : Manner) (s : ScriptState) (work : Work)
        → IsScriptRun manner.limits manner.format s script.old
        → IfOk result (λ reply. Replies manner (slice_step s (pair_in s.plan s.graph shape.now node.now))
        reply script.new work work) }
    ensures moves { (work : Work) → MovesOn result script.old script.new work work }
    ensures running { script.new.halted ≡ script.old.halted }
{
    // The graph may be stored in another order than the script's.
    same_graphs_answer_alike();
    results_depend_on_reads();
    let _ = script.engine.view();
    let Some(pair) = script.engine.pair_of(shape, node) else {
        return Ok(refuse_line(script, NO_PAIR, None));
    };
    let Some(reads) = script.engine.reads(alloc, &pair)? else {
        unreachable!()
    };
    let slice = slice_of(alloc, script.engine.view(), &reads)?;
    Ok(said(script, Reply::Slice(slice)))
}
