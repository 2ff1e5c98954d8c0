//! What is true of graphs that hold the same triples over the same terms, in whatever order, as contracts of
//! functions that do nothing.
ghost use Rattle.std.specs.Prelude.{◌≡◌, ◌<◌, ℕ, List, Option, length};
ghost use Rattle.std.specs.List.{IsDistinct};
ghost use Rattle.shx_term.specs.declared.edit.Edit.{Edit};
ghost use Rattle.shx_term.specs.Triple.{same_triple};
ghost use Rattle.edit_history.specs.declared.net.Net.{Net};
ghost use Rattle.graph_view.specs.Graph.{Graph};
ghost use Rattle.graph_view.specs.SameGraph.{SameGraph};
ghost use Rattle.comp_core.specs.declared.pair.Pair.{Pair};
ghost use Rattle.read_records.specs.Recall.{Answer};
ghost use Rattle.shape_eval.specs.Nested.{nested_pairs};
ghost use Rattle.shape_eval.specs.Plan.{Planned};
ghost use Rattle.shape_eval.specs.Recalled.{IsRecalled};
ghost use Rattle.shape_eval.specs.Report.{pairs, report};
ghost use Rattle.edit_engine.specs.Edits.{net_of};
ghost use Rattle.edit_engine.specs.Nets.{IsNetOn, changed_by, graph_after, outcome};
ghost use Rattle.edit_engine.specs.MayBeAsked.{MayBeAsked};
ghost use Rattle.edit_engine.specs.Remembered.{BringsFresh};
ghost use Rattle.edit_engine.specs.Touched.{touched_pairs};

use shape_eval::{nested_pairs_are_read, results_depend_on_reads, targets_depend_on_reads};

/// A plan that may be asked of one may be asked of the other, and has the same pairs and the same report.
pub fn same_graphs_answer_alike()
    ensures asked { (plan : Planned) (g h : Graph) → SameGraph g h → MayBeAsked plan h → MayBeAsked plan g }
    ensures pairs { (plan : Planned) (g h : Graph) → SameGraph g h → MayBeAsked plan h
        → pairs plan g ≡ pairs plan h }
    ensures report { (plan : Planned) (g h : Graph) → SameGraph g h → MayBeAsked plan h
        → report plan g ≡ report plan h }
    ensures nested { (plan : Planned) (g h : Graph) → SameGraph g h → MayBeAsked plan h
        → nested_pairs plan g ≡ nested_pairs plan h }
{
    results_depend_on_reads();
    targets_depend_on_reads();
    nested_pairs_are_read();
}

/// The same edits come to the same net, the same comes of a net on either, they are the same after it, it
/// touches the same pairs, and brings the same nested ones.
pub fn same_graphs_are_changed_alike()
    ensures net { (g h : Graph) (edits : List Edit) → SameGraph g h → net_of g edits ≡ net_of h edits }
    ensures fits { (g h : Graph) (net : Net) → SameGraph g h → IsNetOn g net → IsNetOn h net }
    ensures outcome { (most_triples most_terms : ℕ) (g h : Graph) (net : Net) → SameGraph g h
        → outcome most_triples most_terms g net ≡ outcome most_triples most_terms h net }
    ensures graph { (g h : Graph) (net : Net) → SameGraph g h → IsDistinct same_triple h.triples
        → SameGraph (graph_after g net) (graph_after h net) }
    ensures touched { (plan : Planned) (g h : Graph) (net : Net) → SameGraph g h → MayBeAsked plan h
        → IsDistinct same_triple h.triples → IsNetOn h net
        → touched_pairs plan g (graph_after g net) (changed_by g net)
        ≡ touched_pairs plan h (graph_after h net) (changed_by h net) }
    ensures fresh { (plan : Planned) (g h : Graph) (net : Net) → SameGraph g h → MayBeAsked plan h
        → IsDistinct same_triple h.triples → IsNetOn h net → (old new : Pair → Option Answer)
        (before after : ℕ) → ((p : Pair) → IsRecalled old p → p.node < length h.terms)
        → BringsFresh plan h (graph_after h net) (changed_by h net) old new before after
        → BringsFresh plan g (graph_after g net) (changed_by g net) old new before after }
{
    results_depend_on_reads();
    targets_depend_on_reads();
    nested_pairs_are_read();
}
