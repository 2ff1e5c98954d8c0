//! What a change of a script's graph rests on: the engine may store the graph in another order.
ghost use Rattle.std.specs.Prelude.{◌≡◌, All, List};
ghost use Rattle.shx_term.specs.declared.edit.Edit.{Edit};
ghost use Rattle.shx_term.specs.Edit.{IsValidEdit};
ghost use Rattle.edit_history.specs.declared.net.Net.{Net};
ghost use Rattle.edit_history.specs.History.{Past};
ghost use Rattle.edit_engine.specs.Applied.{outcome_of};
ghost use Rattle.edit_engine.specs.Course.{IsCourse, IsReady};
ghost use Rattle.edit_engine.specs.Edits.{net_of};
ghost use Rattle.edit_engine.specs.Nets.{Effect, IsNetOn};
ghost use Rattle.graph_view.specs.Graph.{Graph};
ghost use Rattle.graph_view.specs.SameGraph.{SameGraph};
ghost use Rattle.script_run.specs.inner.Changing.{ComesAlike, StaysCourse};

use crate::stored_graph::StoredGraph;
use edit_engine::{
    Engine, changes_can_be_taken_back, edits_come_to_a_net, same_graphs_are_changed_alike,
};
use graph_view::{GraphEdit, GraphView};

/// A law: it does nothing.
pub fn changes_come_alike(engine: &Engine<StoredGraph>)
    ensures nets { (g : Graph) (edits : List Edit) → SameGraph g engine.now.graph
        → net_of g edits ≡ net_of engine.now.graph edits }
    ensures fits { (edits : List Edit) → All IsValidEdit edits
        → IsNetOn engine.now.graph (net_of engine.now.graph edits) }
    ensures alike { (g : Graph) (net : Net) → SameGraph g engine.now.graph → IsNetOn engine.now.graph net
        → ComesAlike engine.now g net }
    ensures effect { (net : Net) → IsReady engine.now.triple_limit engine.now.graph net
        → outcome_of engine.now net ≡ Effect }
    ensures course { (past : Past)
        → IsCourse engine.now.triple_limit engine.now.graph past.changes past.cursor
        → StaysCourse engine.now.triple_limit engine.now.graph past }
{
    edits_come_to_a_net();
    changes_can_be_taken_back();
    same_graphs_are_changed_alike();
    let view = engine.view();
    let _ = view.limit();
    // The terms of the pool are distinct, and at most its limit.
    let _ = view.pool().len();
    // What is remembered is right.
    let _ = engine.recall();
}
