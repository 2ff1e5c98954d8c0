//! Terms that are entered beside the graph, for something that is checked over its pool, and that can be
//! given back.
ghost use Rattle.std.specs.Prelude.{◌≡◌, ◌≤◌, Some, length, position, take, IfErr, IfOk, OnErr, OnOk};
ghost use Rattle.shx_term.specs.Pool.{with_term, HasRoomFor, IsFullFor};
ghost use Rattle.shx_term.specs.TermOrder.{same_term};
ghost use Rattle.shx_term.specs.ValidTriples.{IsNotWide};
ghost use Rattle.graph_view.specs.Graph.{pooled};
ghost use Rattle.edit_engine.specs.Applied.{SamePlan};

use crate::Engine;
use crate::applying::changes_rest_on;
use graph_view::GraphEdit;
use shape_eval::reads_are_own_or_below;
use shx_term::{Id, PoolFault, Term};

impl<V: GraphEdit> Engine<V> {
    /// The number of a term; one that is new is entered. The triples, the report and what is kept stay. A
    /// term that is held takes no memory.
    ///
    /// # Errors
    ///
    /// The pool is full, or memory was refused, and nothing changed.
    pub fn enter(&mut self, term: &Term) -> Result<Id, PoolFault>
        requires { IsNotWide term.now }
        ensures plan { SamePlan self.old self.new }
        ensures settled { self.new.settled ≡ self.old.settled }
        ensures remembered { self.new.remembered ≡ self.old.remembered }
        ensures entered { OnOk result
            (self.new.graph.terms ≡ with_term self.old.graph.terms term.now) }
        ensures found { IfOk result (λ id.
            position (same_term term.now) self.new.graph.terms ≡ Some id) }
        ensures triples { self.new.graph.triples ≡ self.old.graph.triples }
        ensures refused { OnErr result (self.new ≡ self.old) }
        ensures full { IfErr result (λ fault. fault ≡ PoolFault.Full
            → IsFullFor (pooled self.old.graph self.old.term_limit) term.now) }
        ensures memory { IfErr result (λ fault. fault ≡ PoolFault.Memory
            → HasRoomFor (pooled self.old.graph self.old.term_limit) term.now) }
    {
        changes_rest_on(&self.view);
        reads_are_own_or_below();
        self.view.enter(term)
    }

    /// Takes the terms from this number on out of the pool, none of which is settled. The report and what is
    /// kept stay. It takes no memory.
    pub fn cut(&mut self, len: u32)
        requires settled { self.old.settled ≤ len }
        requires within { len ≤ length self.old.graph.terms }
        ensures { self.new ≡ record self.old {
          graph = record {
            terms = take len self.old.graph.terms;
            triples = self.old.graph.triples;
          };
        } }
    {
        changes_rest_on(&self.view);
        reads_are_own_or_below();
        self.view.cut(len);
    }
}
