use crate::kept::Kept;
use graph_view::GraphEdit;
use shape_eval::Plan;
use std::marker::Model;

/// A graph and a plan, with the report of the plan on the graph, which edits keep current.
///
/// It keeps the results of each pair of a targeted shape and one of its target nodes, and for each pair, and
/// each target, the keys that were read for it itself; and both of the pairs that are nested in these. All of
/// it is of the terms that are settled, so what was entered behind them can be cut off.
pub struct Engine<V: GraphEdit> {
    pub(crate) plan: Plan,
    pub(crate) view: V,
    pub(crate) kept: Kept,
    /// How many terms there were when the graph was last changed, or opened.
    pub(crate) settled: u32,
}

// A derived drop is no call: each place where an engine ends would split into one path for each of its parts.
impl<V: GraphEdit + Drop> Drop for Engine<V> {
    fn drop(self) {
        let Engine {
            plan: _plan,
            view: _view,
            kept: _kept,
            settled: _settled,
        } = self;
    }
}

impl<V: GraphEdit> Model for Engine<V> {
    ghost use Rattle.read_records.specs.Recall.{all_kept};
    ghost use Rattle.shape_eval.specs.Planned.{plan_of};
    ghost use Rattle.edit_engine.specs.MayBeAsked.{MayBeAsked};
    ghost use Rattle.edit_engine.specs.EngineState.{EngineState};
    ghost use Rattle.edit_engine.specs.inner.Kept.{IsKeptOf};
    ghost use Rattle.edit_engine.specs.inner.Settled.{IsSettled};

    ghost Value = { EngineState };

    ghost use Rattle.std.proofs.Props.{props};
    ghost use Rattle.std.specs.Coded.{codes};
    ghost use Rattle.std.specs.FinMap as map;
    ghost use Rattle.path_eval.specs.contracts.path.Path as path;

    ghost coded = { Prim.hlevel (codes, props, path.the_row.coded, map.code) };

    ghost view = { λ a. record {
      plan = plan_of a.plan;
      graph = V.GraphView.graph a.view;
      term_limit = V.GraphView.term_limit a.view;
      triple_limit = V.triple_limit a.view;
      remembered = all_kept a.kept.recall;
      settled = a.settled;
    } };

    ghost invariant = { λ a. MayBeAsked (plan_of a.plan) (V.GraphView.graph a.view)
        × IsKeptOf (plan_of a.plan).shapes (plan_of a.plan).targeted (V.GraphView.graph a.view) a.kept
        × IsSettled (plan_of a.plan) (V.GraphView.graph a.view) a.kept a.settled };
}
