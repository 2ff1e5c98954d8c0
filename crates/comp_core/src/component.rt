ghost use Rattle.std.specs.Prelude.{◌≡◌, ℕ, List, ◌++◌, All, OnOk};
ghost use Rattle.shx_term.specs.declared.term.Term.{Term};
ghost use Rattle.graph_view.specs.declared.key.Key.{Key};
ghost use Rattle.graph_view.specs.Graph.{Graph, HasTerms};
ghost use Rattle.graph_view.specs.Valid.{IsValidView};
ghost use Rattle.comp_core.specs.declared.pair.Pair.{Pair};
ghost use Rattle.comp_core.specs.declared.pair.At.{At};
ghost use Rattle.comp_core.specs.declared.row.ResultRow.{ResultRow};
ghost use Rattle.comp_core.specs.Laws.{Agreement, AsksValues};

use crate::{At, Conform, Pair, ResultRow};
use graph_view::GraphView;
use shx_term::{Id, Memory};
use std::alloc::Global;

/// A constraint component (SHACL, section 4) with its parameters.
///
/// It is checked in two steps. First `asks` names the pairs of a shape and a node whose results it needs, and
/// somebody finds these; then `check` finds its own, by the graph and by answers for those pairs.
pub trait Component<'p> {
    /// What it finds at one check and knows at the next, over the same graph.
    type Known;

    /// What is known is right of a graph.
    ghost knows: { Self.Known → Graph → Type 0 };

    /// What it holds beside its parameters was read of the terms of these numbers.
    ghost is_read_of: { Self → List Term → Type 0 };

    /// The numbers whose terms matter to it.
    ghost numbers_of: { Self → List ℕ };

    /// Which pairs it asks, by the value nodes.
    ghost asks_of: { Self → List ℕ → List Pair };

    /// Its results at value nodes of a graph, by the results of the pairs that it asks.
    ghost hits_of: { Self → Graph → (Pair → List ResultRow) → At → List ℕ → List ResultRow };

    /// What it reads for them, by what it is told that the answers of the pairs that it asks were read from.
    ghost reads_of: { Self → Graph → (Pair → List Key) → At → List ℕ → List Key };

    /// Appends the pairs that it asks: by value node, and for each in the order of the shapes that it names.
    fn asks(&self, values: &[Id], out: &mut Vec<Pair>) -> Result<(), Memory>
        ensures { OnOk result (out.new.items ≡ out.old.items ++ asks_of self.now values.now) };

    /// Appends its results in order, and notes what it reads. Neither an early answer nor what is known
    /// shortens what it reads.
    fn check<V: GraphView, C: Conform>(
        &'p self,
        alloc: Global,
        view: &V,
        conform: &C,
        known: &mut Self::Known,
        at: At,
        values: &[Id],
        reads: &mut C::Noted,
        out: &mut Vec<ResultRow>,
    ) -> Result<(), Memory>
        requires valid { IsValidView (V.graph view.now) }
        requires numbers { HasTerms (V.graph view.now) (numbers_of self.now) }
        requires read { is_read_of self.now (V.graph view.now).terms }
        requires values { HasTerms (V.graph view.now) values.now }
        requires known { knows known.old (V.graph view.now) }
        requires held { All (C.holds conform.now) (asks_of self.now values.now) }
        ensures known { knows known.new (V.graph view.now) }
        ensures rows { OnOk result (out.new.items ≡ out.old.items
            ++ hits_of self.now (V.graph view.now) (C.rows_of conform.now) at values.now) }
        ensures reads { (r : Pair → List Key) → C.tells conform.now r
            → OnOk result (C.Noted.notes reads.old reads.new
            (reads_of self.now (V.graph view.now) r at values.now)) };

    /// Its laws: nothing but what it reads, and what it is told of the pairs that it asks, matters to it; and
    /// it asks of value nodes alone. It does nothing.
    fn laws()
        ensures agreement { Agreement numbers_of asks_of hits_of reads_of }
        ensures asks_values { AsksValues asks_of };
}
