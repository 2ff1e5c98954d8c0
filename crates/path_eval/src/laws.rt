//! What is true of paths over any graph, as contracts of functions that do nothing.
ghost use Rattle.std.specs.Prelude.{◌≡◌, ◌<◌, ◌↔◌, ℕ, length, Contains};
ghost use Rattle.shx_term.specs.declared.triple.Triple.{Triple};
ghost use Rattle.graph_view.specs.declared.key.Key.{Key};
ghost use Rattle.graph_view.specs.Agree.{Agree};
ghost use Rattle.graph_view.specs.Graph.{Graph, AllKnown, HasAlso, IsWithout};
ghost use Rattle.graph_view.specs.Key.{Touches};
ghost use Rattle.path_eval.specs.declared.direction.Direction.{Direction};
ghost use Rattle.path_eval.specs.Relation.{PathReads};
ghost use Rattle.path_eval.specs.Route.{Route};
ghost use Rattle.path_eval.specs.Values.{IsSamePath, ListsReached, nodes_reached, path_reads};

/// A path leads to the nodes that it relates, and reads what its reads are: the lists that compute are the
/// relations.
pub fn paths_lead_to_what_they_relate()
    ensures nodes { (g : Graph) → AllKnown g → (d : Direction) (route : Route) (x : ℕ)
        → ListsReached g d route x (nodes_reached g d route x) }
    ensures reads { (g : Graph) → AllKnown g → (d : Direction) (route : Route) (x : ℕ) (k : Key)
        → Contains (path_reads g d route x) k ↔ PathReads g.triples d route x k }
{}

/// Nothing but its reads matters to a path: from a node it leads to the same nodes, and reads the same, in
/// graphs that agree on what it reads there in the first.
pub fn paths_depend_on_their_reads()
    ensures { (g h : Graph) → AllKnown g → AllKnown h → (d : Direction) (route : Route) (x : ℕ)
        → x < length g.terms → Agree g h (Contains (path_reads g d route x)) → IsSamePath g h d route x }
{}

/// A triple that touches none of its reads makes no difference to a path, whether it is inserted or removed.
pub fn edits_beside_a_path()
    ensures inserted { (g h : Graph) (t : Triple) → AllKnown g → AllKnown h → h.terms ≡ g.terms
        → HasAlso g.triples h.triples t → (d : Direction) (route : Route) (x : ℕ) → x < length g.terms
        → ((k : Key) → Contains (path_reads g d route x) k → Touches t k → ⊥) → IsSamePath g h d route x }
    ensures removed { (g h : Graph) (t : Triple) → AllKnown g → AllKnown h → h.terms ≡ g.terms
        → IsWithout g.triples h.triples t → (d : Direction) (route : Route) (x : ℕ) → x < length g.terms
        → ((k : Key) → Contains (path_reads g d route x) k → Touches t k → ⊥) → IsSamePath g h d route x }
{}
