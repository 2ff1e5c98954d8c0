//! What an engine tells of the present graph.
ghost use Rattle.std.specs.Prelude.{◌≡◌, ◌≤◌, [], length, IfOk, IfSome};
ghost use Rattle.std.specs.List.{IsDistinct};
ghost use Rattle.std.specs.Option.{is_some};
ghost use Rattle.shx_term.specs.Members.{SameMembers};
ghost use Rattle.shx_term.specs.Triple.{same_triple};
ghost use Rattle.comp_core.specs.Rows.{is_empty};
ghost use Rattle.read_records.specs.Recall.{all_kept};
ghost use Rattle.shape_eval.specs.Nested.{nested_pairs};
ghost use Rattle.shape_eval.specs.Recalled.{AreRecalled, IsRecallOf};
ghost use Rattle.shape_eval.specs.Own.{own_reads};
ghost use Rattle.shape_eval.specs.Planned.{plan_of};
ghost use Rattle.shape_eval.specs.Report.{pairs, report};
ghost use Rattle.shape_eval.specs.Results.{pair_reads};
ghost use Rattle.edit_engine.specs.MayBeAsked.{MayBeAsked};
ghost use Rattle.edit_engine.specs.NamedPairs.{pair_in};
ghost use Rattle.edit_engine.specs.Remembered.{answer_of};
ghost use Rattle.edit_engine.specs.Touched.{is_among_pairs};

use crate::Engine;
use comp_core::Pair;
use graph_view::{GraphEdit, GraphView, Reads};
use pair_results::{Rows, results_stand_in_term_order};
use read_records::{Reader, Recall};
use shape_eval::{Plan, nested_pairs_stand_below, reads_are_own_or_below};
use shx_term::{Memory, Term};
use std::alloc::Global;

impl<V: GraphEdit> Engine<V> {
    /// Whether the report has no results. It takes no memory, and constant time, as the next two do.
    pub fn conforms(&self) -> bool
        ensures { result ≡ is_empty (report self.now.plan self.now.graph) }
    {
        self.result_count() == 0
    }

    /// How many results the report has.
    pub fn result_count(&self) -> u64
        ensures { result ≡ length (report self.now.plan self.now.graph) }
    {
        results_stand_in_term_order();
        // The terms of the pool are distinct.
        let _ = self.view.pool().len();
        self.kept.results.len()
    }

    /// How many pairs there are: of each targeted shape its target nodes.
    pub fn pair_count(&self) -> u64
        ensures { result ≡ length (pairs self.now.plan self.now.graph) }
    {
        self.kept.pairs
    }

    /// The results of the report, in order. It takes no memory, and neither does a step.
    pub fn rows(&self) -> Rows<'_>
        ensures { result ≡ report self.now.plan self.now.graph }
    {
        results_stand_in_term_order();
        // The terms of the pool are distinct.
        let _ = self.view.pool().len();
        self.kept.results.rows(self.plan.targeted())
    }

    /// What was read for a pair itself: parts of the graph, and what was found of the pairs that it asks;
    /// `None` exactly where it is none of the graph. It takes no memory, and logarithmic time.
    pub fn record(&self, pair: &Pair) -> Option<&Reads>
        ensures reads { IfSome result (λ reads.
            SameMembers (own_reads self.now.plan.shapes self.now.graph pair.now) reads.now) }
        ensures pair { is_some result ≡ is_among_pairs (pairs self.now.plan self.now.graph) pair.now }
    {
        self.kept.records.reads_of(&Reader::OfPair(*pair))
    }

    /// The parts of the graph that were read for a pair, and for all that is nested in it; `None` exactly
    /// where it is none of the graph. It takes time linear in what was read for the pairs that are nested in
    /// it, each of which it looks up once.
    pub fn reads(&self, alloc: Global, pair: &Pair) -> Result<Option<Reads>, Memory>
        ensures reads { IfOk result (λ found. IfSome found (λ reads.
            SameMembers (pair_reads self.now.plan.shapes self.now.graph pair.now) reads)) }
        ensures pair { IfOk result (λ found.
            is_some found ≡ is_among_pairs (pairs self.now.plan self.now.graph) pair.now) }
    {
        reads_are_own_or_below();
        nested_pairs_stand_below();
        match self.record(pair) {
            Some(own) => Ok(Some(self.kept.recall.all_read(alloc, own)?)),
            None => Ok(None),
        }
    }

    /// The pair of a shape and a node, by their terms; `None` exactly where the graph has no such pair. It
    /// takes no memory, and a look-up of each.
    pub fn pair_of(&self, shape: &Term, node: &Term) -> Option<Pair>
        ensures { result ≡ pair_in self.now.plan self.now.graph shape.now node.now }
    {
        let pool = self.view.pool();
        let pair = Pair {
            shape: self.plan.number(pool.find(shape)?)?,
            node: pool.find(node)?,
        };
        self.record(&pair)?;
        Some(pair)
    }

    /// What is remembered of nested pairs: what they come to on the present graph. It takes no memory.
    pub fn recall(&self) -> &Recall
        ensures same { all_kept result.now ≡ self.now.remembered }
        ensures settled { result.now.staged ≡ [] }
        ensures right { IsRecallOf SameMembers self.now.plan.shapes self.now.graph
            (answer_of self.now.remembered) }
        ensures nested { AreRecalled (answer_of self.now.remembered)
            (nested_pairs self.now.plan self.now.graph) }
    {
        &self.kept.recall
    }

    /// The plan. It takes no memory.
    pub fn plan(&self) -> &Plan
        ensures { plan_of result.now ≡ self.now.plan }
    {
        &self.plan
    }

    /// The graph, of which the plan may be asked. It takes no memory.
    pub fn view(&self) -> &V
        ensures asked { MayBeAsked self.now.plan self.now.graph }
        ensures distinct { IsDistinct same_triple self.now.graph.triples }
        ensures settled { self.now.settled ≤ length self.now.graph.terms }
        ensures graph { V.GraphView.graph result.now ≡ self.now.graph }
        ensures term_limit { V.GraphView.term_limit result.now ≡ self.now.term_limit }
        ensures triple_limit { V.triple_limit result.now ≡ self.now.triple_limit }
    {
        // Its triples are distinct.
        let _ = self.view.len();
        &self.view
    }
}
