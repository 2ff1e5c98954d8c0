//! What is true of SHACL instances over any graph, as contracts of functions that do nothing.
ghost use Rattle.std.specs.Prelude.{◌≡◌, ◌≢◌, ◌<◌, ◌↔◌, ℕ, List, length, Contains, IsTrue};
ghost use Rattle.shx_term.specs.declared.triple.Triple.{Triple};
ghost use Rattle.shx_term.specs.declared.vocabulary.TheConstants.{RDF_TYPE};
ghost use Rattle.graph_view.specs.Agree.{Agree};
ghost use Rattle.graph_view.specs.Graph.{Graph, AllKnown, HasAlso, IsWithout};
ghost use Rattle.path_eval.specs.declared.direction.Direction.{Direction};
ghost use Rattle.path_eval.specs.Instances.{IsInstance, instance_route, is_instance};
ghost use Rattle.path_eval.specs.Values.{path_reads};

/// The test of an instance finds exactly what an instance is.
pub fn instances_are_told()
    ensures { (g : Graph) → AllKnown g → (node class : ℕ)
        → IsTrue (is_instance g node class) ↔ IsInstance g.triples node class }
{}

/// Graphs that agree on what is read for a node's classes have it as an instance of the same classes.
pub fn instances_depend_on_their_reads()
    ensures { (g h : Graph) → AllKnown g → AllKnown h → (node : ℕ) → node < length g.terms
        → Agree g h (Contains (path_reads g Direction.Forward instance_route node))
        → (class : ℕ) → is_instance g node class ≡ is_instance h node class }
{}

/// A type of one node, inserted or removed, makes no difference to whose instance any other node is.
pub fn a_type_tells_of_its_node_alone()
    ensures inserted { (ts us : List Triple) (t : Triple) → t.p ≡ RDF_TYPE → HasAlso ts us t
        → (node class : ℕ) → node ≢ t.s → IsInstance ts node class ↔ IsInstance us node class }
    ensures removed { (ts us : List Triple) (t : Triple) → t.p ≡ RDF_TYPE → IsWithout ts us t
        → (node class : ℕ) → node ≢ t.s → IsInstance ts node class ↔ IsInstance us node class }
{}
