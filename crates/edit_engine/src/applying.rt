ghost use Rattle.std.specs.Prelude.{◌≡◌, ◌+◌, ◌-◌, ◌<◌, ◌≤◌, ◌^◌, [], ◌∷◌, ◌++◌, length, nat_le, All};
ghost use Rattle.std.specs.Prelude.{IfOk, IfErr, OnOk, OnErr};
ghost use Rattle.std.specs.List.{IsDistinct};
ghost use Rattle.shx_term.specs.TermOrder.{same_term};
ghost use Rattle.shx_term.specs.Edit.{IsValidEdit};
ghost use Rattle.shx_term.specs.Triple.{same_triple};
ghost use Rattle.graph_view.specs.Patched.{IsPatch, patched};
ghost use Rattle.graph_view.specs.SameGraph.{SameGraph};
ghost use Rattle.graph_view.specs.Valid.{IsValidTriple};
ghost use Rattle.shape_eval.specs.Laws.{NestedDependOnReads, ResultsDependOnReads, TargetsDependOnReads};
ghost use Rattle.edit_engine.specs.Applied.{Applies, Refuses, SamePlan, counted_at};
ghost use Rattle.edit_engine.specs.Edits.{net_of};
ghost use Rattle.edit_engine.specs.Nets.{IsNetOn, net_over, turned};
ghost use Rattle.edit_engine.specs.Remembered.{BringsFresh, answer_of};
ghost use Rattle.edit_engine.specs.Touched.{touched_pairs};

use crate::kept::Kept;
use crate::renewing::renewal_of;
use crate::staging::terms_are_distinct;
use crate::stated::{enter_all, has_room_for_terms, numbers_of};
use crate::{Change, EditFault, Engine, edits_come_to_a_net};
use edit_history::Net;
use graph_view::{GraphEdit, GraphView, StoreFault};
use shape_eval::{
    nested_pairs_are_read, reads_are_own_or_below, results_depend_on_reads, targets_depend_on_reads,
};
use shx_term::{Edit, Memory, Steps, TermTriple, Triple};
use std::alloc::{AllocError, Global};
use std::slice;
use std::sync::ledger::Ledger;

const UNCHANGED: Change = Change {
    changed: false,
    evaluated: 0,
};

impl<V: GraphEdit> Engine<V> {
    /// Makes an edit: the case of one of `apply_all`.
    ///
    /// # Errors
    ///
    /// Those of `apply_all`.
    pub fn apply<K: Ledger, L: Ledger>(
        &mut self,
        alloc: Global,
        edit: &Edit,
        nested: &mut Steps<K>,
        steps: &mut Steps<L>,
    ) -> Result<Change, EditFault>
        requires { IsValidEdit edit.now }
        ensures plan { SamePlan self.old self.new }
        ensures applied { IfOk result (λ change. Applies self.old
            (net_of self.old.graph (edit.now ∷ [])) change self.new nested.old nested.new) }
        ensures steps { IfOk result (λ change. steps.new ≡ steps.old + change.evaluated) }
        ensures refused { IfErr result (λ fault. Refuses self.old
            (net_of self.old.graph (edit.now ∷ [])) fault self.new
            (counted_at steps.old nested.old) (counted_at steps.new nested.new)) }
    {
        self.apply_all(alloc, slice::from_ref(edit), nested, steps)
    }

    /// Makes edits, in order, as one change: what they come to together is made at once, and evaluated once.
    ///
    /// # Errors
    ///
    /// Those of `apply_net`.
    pub fn apply_all<K: Ledger, L: Ledger>(
        &mut self,
        alloc: Global,
        edits: &[Edit],
        nested: &mut Steps<K>,
        steps: &mut Steps<L>,
    ) -> Result<Change, EditFault>
        requires { All IsValidEdit edits.now }
        ensures plan { SamePlan self.old self.new }
        ensures applied { IfOk result (λ change. Applies self.old (net_of self.old.graph edits.now)
            change self.new nested.old nested.new) }
        ensures steps { IfOk result (λ change. steps.new ≡ steps.old + change.evaluated) }
        ensures refused { IfErr result (λ fault. Refuses self.old (net_of self.old.graph edits.now)
            fault self.new (counted_at steps.old nested.old) (counted_at steps.new nested.new)) }
    {
        edits_come_to_a_net();
        let net = self.net_of(alloc, edits)?;
        self.apply_net(alloc, &net, false, nested, steps)
    }

    /// Makes a change, or the one that takes it back, and evaluates exactly the pairs that it touches: those
    /// that were none before, and those for which, or for a pair nested in which, a key was read that a
    /// changed triple touches. Each evaluation counts a step. Of the pairs that are nested in these, exactly
    /// those are evaluated that are not remembered, or that a changed triple touches: each once, which is
    /// counted in `nested`, and from then on they are remembered.
    ///
    /// It costs what these pairs cost, and some look-ups for each triple; where a subclass is stated or taken
    /// back, also some for each instance of that, and for each subclass of the classes in the targets that
    /// are touched.
    ///
    /// # Errors
    ///
    /// A limit would be passed, and nothing changed. Or memory was refused: then the graph, the report, what
    /// is kept and what is remembered are as before, but the pool may hold terms of what was to be added, and
    /// evaluations may have been counted.
    pub fn apply_net<K: Ledger, L: Ledger>(
        &mut self,
        alloc: Global,
        net: &Net,
        backwards: bool,
        nested: &mut Steps<K>,
        steps: &mut Steps<L>,
    ) -> Result<Change, EditFault>
        requires { IsNetOn self.old.graph (turned backwards net.now) }
        ensures plan { SamePlan self.old self.new }
        ensures applied { IfOk result (λ change.
            Applies self.old (turned backwards net.now) change self.new nested.old nested.new) }
        ensures steps { IfOk result (λ change. steps.new ≡ steps.old + change.evaluated) }
        ensures refused { IfErr result (λ fault.
            Refuses self.old (turned backwards net.now) fault self.new
            (counted_at steps.old nested.old) (counted_at steps.new nested.new)) }
    {
        let (added, removed) = if backwards {
            (&net.removed, &net.added)
        } else {
            (&net.added, &net.removed)
        };
        self.change(alloc, added.as_slice(), removed.as_slice(), nested, steps)
    }

    // Takes triples out of the graph and puts others in, within the limits.
    fn change<K: Ledger, L: Ledger>(
        &mut self,
        alloc: Global,
        added: &[TermTriple],
        removed: &[TermTriple],
        nested: &mut Steps<K>,
        steps: &mut Steps<L>,
    ) -> Result<Change, EditFault>
        requires { IsNetOn self.old.graph (net_over added.now removed.now) }
        ensures plan { SamePlan self.old self.new }
        ensures applied { IfOk result (λ change. Applies self.old (net_over added.now removed.now)
            change self.new nested.old nested.new) }
        ensures steps { IfOk result (λ change. steps.new ≡ steps.old + change.evaluated) }
        ensures refused { IfErr result (λ fault. Refuses self.old (net_over added.now removed.now)
            fault self.new (counted_at steps.old nested.old) (counted_at steps.new nested.new)) }
    {
        changes_rest_on(&self.view);
        reads_are_own_or_below();
        if added.is_empty() && removed.is_empty() {
            return Ok(UNCHANGED);
        }
        if !self.has_room_for(added.len(), removed.len()) {
            return Err(EditFault::TooManyTriples);
        }
        if !has_room_for_terms(alloc, self.view.pool(), added)? {
            return Err(EditFault::TooManyTerms);
        }
        let gone = numbers_of(alloc, self.view.pool(), removed)?;
        let new = enter_all(alloc, &mut self.view, added)?;
        let evaluated = self.make(alloc, &new, &gone, nested, steps)?;
        Ok(Change {
            changed: true,
            evaluated,
        })
    }

    // Whether the graph has room for so many triples more, once so many are removed.
    fn has_room_for(&self, added: usize, removed: usize) -> bool
        requires { removed ≤ length self.now.graph.triples }
        ensures { result ≡ nat_le ((length self.now.graph.triples - removed) + added)
            self.now.triple_limit }
    {
        let left = self.view.len() - removed as u64;
        added as u64 <= self.view.limit() - left
    }

    /// Takes triples out of the graph and puts others in: what that touches is evaluated beside the graph,
    /// and all memory is taken, before anything changes. It gives how many pairs were evaluated.
    fn make<K: Ledger, L: Ledger>(
        &mut self,
        alloc: Global,
        added: &[Triple],
        removed: &[Triple],
        nested: &mut Steps<K>,
        steps: &mut Steps<L>,
    ) -> Result<u64, Memory>
        requires patch { IsPatch self.old.graph added.now removed.now }
        requires valid { All (IsValidTriple self.old.graph.terms) added.now }
        requires room { length (patched self.old.graph added.now removed.now).triples
            ≤ self.old.triple_limit }
        ensures plan { SamePlan self.old self.new }
        ensures graph { OnOk result (SameGraph
            (patched self.old.graph added.now removed.now)
            self.new.graph) }
        ensures evaluated { IfOk result (λ n. n ≡ length
            (touched_pairs self.old.plan self.old.graph
            (patched self.old.graph added.now removed.now)
            (added.now ++ removed.now))) }
        ensures steps { IfOk result (λ n. steps.new ≡ steps.old + n) }
        ensures nested { OnOk result (BringsFresh self.old.plan self.old.graph
            (patched self.old.graph added.now removed.now) (added.now ++ removed.now)
            (answer_of self.old.remembered) (answer_of self.new.remembered) nested.old nested.new) }
        ensures refused { OnErr result (self.new ≡ self.old) }
    {
        changes_rest_on(&self.view);
        reads_are_own_or_below();
        let Kept {
            records,
            recall,
            ..
        } = &mut self.kept;
        let found = renewal_of(
            alloc, &self.view, &self.plan, records, recall, added, removed, nested, steps,
        );
        let Ok(renewal) = found else {
            self.kept.drop_staged();
            return Err(AllocError);
        };
        let evaluated = renewal.evaluated.len() as u64;
        self.kept.stage(alloc, self.view.pool(), renewal)?;
        match self.view.exchange(removed, added) {
            Ok(()) => {
                self.kept.commit();
                self.settled = self.view.pool().len();
                Ok(evaluated)
            }
            Err(StoreFault::TooMany) => unreachable!(),
            Err(StoreFault::Memory) => {
                self.kept.drop_staged();
                Err(AllocError)
            }
        }
    }
}

// What is true of any view, and of results, targets and nested pairs over any graph, that a change rests on.
pub(crate) fn changes_rest_on<V: GraphEdit>(view: &V)
    ensures results { ResultsDependOnReads }
    ensures targets { TargetsDependOnReads }
    ensures nested { NestedDependOnReads }
    ensures terms { IsDistinct same_term (V.GraphView.graph view.now).terms }
    ensures triples { IsDistinct same_triple (V.GraphView.graph view.now).triples }
    ensures limit { V.triple_limit view.now < 2 ^ 64 }
{
    results_depend_on_reads();
    targets_depend_on_reads();
    nested_pairs_are_read();
    terms_are_distinct(view.pool());
    let _ = view.len();
    let _ = view.limit();
}
