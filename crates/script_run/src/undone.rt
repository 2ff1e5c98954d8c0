//! What undo and redo do to a script: laws, which do nothing when called.
ghost use Rattle.std.specs.Prelude.{◌≡◌, List, ℕ};
ghost use Rattle.shx_term.specs.declared.edit.Edit.{Edit};
ghost use Rattle.shx_term.specs.declared.limits.Limits.{Limits as LimitsOf};
ghost use Rattle.shx_term.specs.Limits.{AreUsable};
ghost use Rattle.shx_term.specs.Members.{SameMembers};
ghost use Rattle.graph_view.specs.Graph.{Graph};
ghost use Rattle.shape_eval.specs.Plan.{Planned};
ghost use Rattle.shape_eval.specs.Report.{report};
ghost use Rattle.edit_engine.specs.Course.{IsWhole};
ghost use Rattle.edit_engine.specs.MayBeAsked.{MayBeAsked};
ghost use Rattle.script_lines.specs.declared.command.Command.{Command};
ghost use Rattle.script_lines.specs.Lines.{IsValidCommand};
ghost use Rattle.ttl_meaning.specs.State.{State};
ghost use Rattle.script_run.specs.Manner.{Manner};
ghost use Rattle.script_run.specs.Script.{command_step, serve_lines};
ghost use Rattle.script_run.specs.ScriptState.{ScriptState, start_state};
ghost use Rattle.script_run.specs.Undone.{AreValidLines, HaveEffect, StandsWell};
ghost use Rattle.script_run.specs.Undone.{after_edits, made_again, taken_back};

use edit_engine::{entered_terms_change_no_report, same_graphs_answer_alike};

/// A script stands well before its first line, where the graph of the data text is whole, and behind each
/// line.
pub fn scripts_stand_well()
    ensures start { (limits : LimitsOf) (g : Graph) (end : State) (plan : Planned) → IsWhole limits.triples g
        → StandsWell limits (start_state g end plan) }
    ensures step { (limits : LimitsOf) (s : ScriptState) (command : Command) → StandsWell limits s
        → IsValidCommand command → StandsWell limits (command_step limits s command).state }
    ensures lines { (manner : Manner) (s : ScriptState) (lines : List (List ℕ)) → StandsWell manner.limits s
        → AreValidLines manner.lines lines
        → StandsWell manner.limits (serve_lines manner s lines).state }
{}

/// Behind edits that changed the graph undo gives its triples back, and under the same shapes its report; and
/// redo then gives those behind the edits back.
pub fn undo_gives_back()
    ensures triples { (limits : LimitsOf) (s : ScriptState) (edits : List Edit) → AreUsable limits
        → StandsWell limits s → HaveEffect limits s edits
        → SameMembers (taken_back limits s edits).graph.triples s.graph.triples }
    ensures report { (limits : LimitsOf) (s : ScriptState) (edits : List Edit) → AreUsable limits
        → StandsWell limits s → HaveEffect limits s edits → MayBeAsked s.plan s.graph
        → report s.plan (taken_back limits s edits).graph ≡ report s.plan s.graph }
    ensures again { (limits : LimitsOf) (s : ScriptState) (edits : List Edit) → AreUsable limits
        → StandsWell limits s → HaveEffect limits s edits
        → SameMembers (made_again limits s edits).graph.triples (after_edits limits s edits).graph.triples }
    ensures report_again { (limits : LimitsOf) (s : ScriptState) (edits : List Edit) → AreUsable limits
        → StandsWell limits s → HaveEffect limits s edits → MayBeAsked s.plan s.graph
        → report s.plan (made_again limits s edits).graph
        ≡ report s.plan (after_edits limits s edits).graph }
{
    same_graphs_answer_alike();
    entered_terms_change_no_report();
}
