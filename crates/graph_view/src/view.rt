ghost use Rattle.std.specs.Prelude.{◌≡◌, ◌<◌, ◌↔◌, ℕ, [], ◌∷◌, Some, length, slice_get, min, All, Contains};
ghost use Rattle.std.specs.Prelude.{IsTrue, IfOk, OnOk};
ghost use Rattle.std.specs.List.{IsDistinct};
ghost use Rattle.shx_term.specs.Members.{SameMembers};
ghost use Rattle.shx_term.specs.Triple.{same_triple};
ghost use Rattle.shx_term.specs.declared.triple.Triple.{Triple};
ghost use Rattle.shx_term.specs.ValidTriples.{IsNotWide};
ghost use Rattle.graph_view.specs.Agree.{Agree};
ghost use Rattle.graph_view.specs.Graph.{Graph, IsKnownTriple, AllKnown, HasTerms};
ghost use Rattle.graph_view.specs.Graph.{objects_of, subjects_of, triples_of, triples_with};
ghost use Rattle.graph_view.specs.Key.{look};
ghost use Rattle.graph_view.specs.Valid.{IsValidView};

use crate::{Key, Notes};
use shx_term::{Id, Memory, Pool, Term, Triple};
use std::alloc::Global;

/// A graph that can be looked up. Which triples it holds is told; their order is not.
///
/// A look-up gives its answer in the order of terms, unless it is one without order, each number or triple
/// once, and adds to `reads` the one key that it read. All numbers in an answer have terms.
pub trait GraphView {
    /// The terms and triples of the graph.
    ghost graph: { Self → Graph };

    /// How many terms the pool may hold.
    ghost term_limit: { Self → ℕ };

    /// The terms of the graph. It takes no memory.
    fn pool(&self) -> &Pool
        ensures terms { result.now.terms ≡ (graph self.now).terms }
        ensures limit { result.now.limit ≡ term_limit self.now }
        ensures known { AllKnown (graph self.now) };

    /// How many triples there are. They are distinct. It takes no memory.
    fn len(&self) -> u64
        ensures count { result ≡ length (graph self.now).triples }
        ensures distinct { IsDistinct same_triple (graph self.now).triples };

    /// Whether the triple is held. It takes no memory.
    fn contains(&self, t: &Triple) -> bool
        ensures { IsTrue result ↔ Contains (graph self.now).triples t.now };

    /// How many triples touch the key, or `most` where more do. It takes no memory.
    fn count_up_to(&self, key: &Key, most: u64) -> u64
        ensures { result ≡ min (length (look (graph self.now).triples key.now)) most };

    /// The objects of a subject and predicate, in term order. It reads `Out(s, p)`.
    fn objects<N: Notes>(
        &self,
        alloc: Global,
        s: Id,
        p: Id,
        reads: &mut N,
    ) -> Result<Vec<Id>, Memory>
        ensures objects { IfOk result (λ found. found.items ≡ objects_of (graph self.now) s p) }
        ensures known { IfOk result (λ found. HasTerms (graph self.now) found.items) }
        ensures reads { OnOk result (N.notes reads.old reads.new (Key.Out s p ∷ [])) };

    /// The subjects of a predicate and object, in term order. It reads `In(p, o)`.
    fn subjects<N: Notes>(
        &self,
        alloc: Global,
        p: Id,
        o: Id,
        reads: &mut N,
    ) -> Result<Vec<Id>, Memory>
        ensures subjects { IfOk result (λ found. found.items ≡ subjects_of (graph self.now) p o) }
        ensures known { IfOk result (λ found. HasTerms (graph self.now) found.items) }
        ensures reads { OnOk result (N.notes reads.old reads.new (Key.In p o ∷ [])) };

    /// The same objects, in any order. It reads `Out(s, p)`.
    fn objects_unsorted<N: Notes>(
        &self,
        alloc: Global,
        s: Id,
        p: Id,
        reads: &mut N,
    ) -> Result<Vec<Id>, Memory>
        ensures objects { IfOk result (λ found. SameMembers found.items (objects_of (graph self.now) s p)) }
        ensures known { IfOk result (λ found. HasTerms (graph self.now) found.items) }
        ensures reads { OnOk result (N.notes reads.old reads.new (Key.Out s p ∷ [])) };

    /// The same subjects, in any order. It reads `In(p, o)`.
    fn subjects_unsorted<N: Notes>(
        &self,
        alloc: Global,
        p: Id,
        o: Id,
        reads: &mut N,
    ) -> Result<Vec<Id>, Memory>
        ensures subjects { IfOk result (λ found.
            SameMembers found.items (subjects_of (graph self.now) p o)) }
        ensures known { IfOk result (λ found. HasTerms (graph self.now) found.items) }
        ensures reads { OnOk result (N.notes reads.old reads.new (Key.In p o ∷ [])) };

    /// The triples of a subject, by predicate and object in term order. It reads `Subject(s)`.
    fn triples_of<N: Notes>(
        &self,
        alloc: Global,
        s: Id,
        reads: &mut N,
    ) -> Result<Vec<Triple>, Memory>
        ensures triples { IfOk result (λ found. found.items ≡ triples_of (graph self.now) s) }
        ensures known { IfOk result (λ found. All (IsKnownTriple (graph self.now).terms) found.items) }
        ensures reads { OnOk result (N.notes reads.old reads.new (Key.Subject s ∷ [])) };

    /// The triples of a predicate, by subject and object in term order. It reads `Predicate(p)`.
    fn triples_with<N: Notes>(
        &self,
        alloc: Global,
        p: Id,
        reads: &mut N,
    ) -> Result<Vec<Triple>, Memory>
        ensures triples { IfOk result (λ found. found.items ≡ triples_with (graph self.now) p) }
        ensures known { IfOk result (λ found. All (IsKnownTriple (graph self.now).terms) found.items) }
        ensures reads { OnOk result (N.notes reads.old reads.new (Key.Predicate p ∷ [])) };

    /// The same triples, in any order. It reads `Predicate(p)`.
    fn triples_with_unsorted<N: Notes>(
        &self,
        alloc: Global,
        p: Id,
        reads: &mut N,
    ) -> Result<Vec<Triple>, Memory>
        ensures triples { IfOk result (λ found. SameMembers found.items (triples_with (graph self.now) p)) }
        ensures known { IfOk result (λ found. All (IsKnownTriple (graph self.now).terms) found.items) }
        ensures reads { OnOk result (N.notes reads.old reads.new (Key.Predicate p ∷ [])) };
}

/// The term of a number in a valid view. It takes no memory, and constant time.
pub fn term_of<V: GraphView>(view: &V, id: Id) -> &Term
    requires valid { IsValidView (V.graph view.now) }
    requires known { id < length (V.graph view.now).terms }
    ensures term { slice_get (V.graph view.now).terms id ≡ Some result.now }
    ensures narrow { IsNotWide result.now }
{
    view.pool().term(id)
}

/// What look-ups give is what is held, and nothing else: a number is given exactly where its triple is
/// held, and a triple exactly where it is held and has the subject or the predicate that was asked for.
pub fn look_ups_give_what_is_held()
    ensures objects { (g : Graph) (s p o : ℕ)
        → Contains (objects_of g s p) o ↔ Contains g.triples (record { s = s; p = p; o = o }) }
    ensures subjects { (g : Graph) (p o s : ℕ)
        → Contains (subjects_of g p o) s ↔ Contains g.triples (record { s = s; p = p; o = o }) }
    ensures by_subject { (g : Graph) (s : ℕ) (t : Triple)
        → Contains (triples_of g s) t ↔ (Contains g.triples t × (t.s ≡ s)) }
    ensures by_predicate { (g : Graph) (p : ℕ) (t : Triple)
        → Contains (triples_with g p) t ↔ (Contains g.triples t × (t.p ≡ p)) }
{}

/// A look-up tells no more than its key: it gives the same in graphs that agree on the key.
pub fn look_ups_agree()
    ensures objects { (g h : Graph) (s p : ℕ) → AllKnown g
        → Agree g h (λ key. key ≡ Key.Out s p) → objects_of g s p ≡ objects_of h s p }
    ensures subjects { (g h : Graph) (p o : ℕ) → AllKnown g
        → Agree g h (λ key. key ≡ Key.In p o) → subjects_of g p o ≡ subjects_of h p o }
    ensures by_subject { (g h : Graph) (s : ℕ) → AllKnown g
        → Agree g h (λ key. key ≡ Key.Subject s) → triples_of g s ≡ triples_of h s }
    ensures by_predicate { (g h : Graph) (p : ℕ) → AllKnown g
        → Agree g h (λ key. key ≡ Key.Predicate p) → triples_with g p ≡ triples_with h p }
{}
