//! What edits come to, and what can be taken back, as contracts of functions that do nothing.
ghost use Rattle.std.specs.Prelude.{◌≡◌, ◌≤◌, ◌+◌, ◌-◌, ℕ, true, false, [], Some, List, length, All};
ghost use Rattle.shx_term.specs.declared.edit.Edit.{Edit};
ghost use Rattle.shx_term.specs.Edit.{IsValidEdit};
ghost use Rattle.shx_term.specs.Members.{SameMembers};
ghost use Rattle.edit_history.specs.declared.net.Net.{Net};
ghost use Rattle.edit_history.specs.History.{Past, history_after, redo_change, undo_change};
ghost use Rattle.graph_view.specs.Graph.{Graph};
ghost use Rattle.graph_view.specs.SameGraph.{SameGraph};
ghost use Rattle.edit_engine.specs.Course.{IsCourse, IsReady, IsWhole};
ghost use Rattle.edit_engine.specs.Edits.{net_of};
ghost use Rattle.edit_engine.specs.Nets.{Effect, IsNetOn, graph_after, is_no_change, outcome, turned};

/// Valid edits come to a change that may be made of the graph.
pub fn edits_come_to_a_net()
    ensures { (g : Graph) (edits : List Edit) → All IsValidEdit edits → IsNetOn g (net_of g edits) }
{}

/// Changes of a history can be taken back, and made again. So one that is new keeps it, where the graph after
/// it is the one at hand; and so does each that is taken back or made again. What can be made meets no limit,
/// and what takes a change back gives the triples of before.
pub fn changes_can_be_taken_back()
    ensures none { (most : ℕ) (g : Graph) → IsCourse most g [] 0 }
    ensures back { (most : ℕ) (g : Graph) (past : Past) (net : Net) → IsCourse most g past.changes past.cursor
        → undo_change past ≡ Some net → IsReady most g (turned true net) }
    ensures forth { (most : ℕ) (g : Graph) (past : Past) (net : Net)
        → IsCourse most g past.changes past.cursor → redo_change past ≡ Some net → IsReady most g net }
    ensures effect { (most_triples most_terms : ℕ) (g : Graph) (net : Net) → IsReady most_triples g net
        → length g.terms ≤ most_terms → outcome most_triples most_terms g net ≡ Effect }
    ensures made { (most : ℕ) (g h : Graph) (past : Past) (net : Net) → IsWhole most g
        → IsCourse most g past.changes past.cursor → IsNetOn g net → is_no_change net ≡ false
        → SameGraph (graph_after g net) h
        → IsCourse most h (history_after past net) (length (history_after past net)) }
    ensures undone { (most : ℕ) (g h : Graph) (past : Past) (net : Net) → IsWhole most g
        → IsCourse most g past.changes past.cursor → undo_change past ≡ Some net
        → SameGraph (graph_after g (turned true net)) h → IsCourse most h past.changes (past.cursor - 1) }
    ensures redone { (most : ℕ) (g h : Graph) (past : Past) (net : Net) → IsWhole most g
        → IsCourse most g past.changes past.cursor → redo_change past ≡ Some net
        → SameGraph (graph_after g net) h → IsCourse most h past.changes (past.cursor + 1) }
    ensures given_back { (most : ℕ) (g : Graph) (net : Net) → IsWhole most g → IsNetOn g net
        → SameMembers (graph_after (graph_after g net) (turned true net)).triples g.triples }
{}
