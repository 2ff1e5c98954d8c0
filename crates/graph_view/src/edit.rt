ghost use Rattle.std.specs.Prelude.{◌≡◌, ◌≤◌, ◌<◌, ◌+◌, ◌↔◌, ℕ, Some, length, position, slice_get, take};
ghost use Rattle.std.specs.Prelude.{All, Contains, if◌then◌else◌, IsTrue, IfOk, IfErr, OnOk, OnErr};
ghost use Rattle.shx_term.specs.Pool.{with_term, IsFullFor, HasRoomFor};
ghost use Rattle.shx_term.specs.TermOrder.{same_term};
ghost use Rattle.shx_term.specs.declared.term.Term.{Term};
ghost use Rattle.shx_term.specs.declared.triple.Triple.{Triple};
ghost use Rattle.graph_view.specs.Agree.{Agree, IsAnyKey, IsUntouched};
ghost use Rattle.graph_view.specs.Graph.{Graph, pooled, IsKnownTriple, HasAlso, IsWithout};
ghost use Rattle.graph_view.specs.Graph.{IsAtLimit, HasRoomForTriple};
ghost use Rattle.graph_view.specs.Patched.{patched, IsPatch};
ghost use Rattle.shx_term.specs.Members.{SameMembers};

use crate::GraphView;
use shx_term::{Id, PoolFault, Term, Triple};
use std::alloc::{AllocError, AllocFailed};
use std::error::Error;
use std::fmt;

/// Why a triple was not added.
#[derive(Clone, Copy, Debug, PartialEq, Eq)]
pub enum StoreFault {
    /// The graph holds as many triples as its limit, and the triple is none of them.
    TooMany,
    Memory,
}

impl fmt::Display for StoreFault {
    ghost use Rattle.std.specs.Prelude.{Some};
    ghost use Rattle.graph_view.specs.StoreFault.{fault_text};

    ghost output = { λ fault. Some (fault_text fault) };

    fn fmt<W: fmt::Write>(&self, f: &mut fmt::Formatter<W>) -> fmt::Result {
        match self {
            StoreFault::TooMany => f.write_str("the graph is full"),
            StoreFault::Memory => f.write_str("out of memory"),
        }
    }
}

impl Error for StoreFault {}

impl From<AllocError> for StoreFault {
    ghost use Rattle.std.specs.Prelude.{◌≡◌};
    ghost use Rattle.graph_view.specs.declared.edit.StoreFault.{StoreFault};

    ghost from_gives = { λ _ fault. fault ≡ StoreFault.Memory };

    fn from(_: AllocError) -> Self {
        StoreFault::Memory
    }
}

impl<T: Drop> From<AllocFailed<T>> for StoreFault {
    ghost use Rattle.std.specs.Prelude.{◌≡◌};
    ghost use Rattle.graph_view.specs.declared.edit.StoreFault.{StoreFault};

    ghost from_gives = { λ _ fault. fault ≡ StoreFault.Memory };

    fn from(_: AllocFailed<T>) -> Self {
        StoreFault::Memory
    }
}

/// A graph that takes new terms and triples. A refused call changes nothing.
pub trait GraphEdit: GraphView {
    /// How many triples the graph may hold.
    ghost triple_limit: { Self → ℕ };

    /// How many triples the graph may hold, which no call changes. It takes no memory.
    fn limit(&self) -> u64
        ensures value { result ≡ triple_limit self.now }
        ensures within { length (Self.graph self.now).triples ≤ triple_limit self.now };

    /// Enters a term into the pool; the triples stay. A term that is held takes no memory.
    fn enter(&mut self, term: &Term) -> Result<Id, PoolFault>
        ensures entered { OnOk result
            ((Self.graph self.new).terms ≡ with_term (Self.graph self.old).terms term.now) }
        ensures found { IfOk result (λ id.
            position (same_term term.now) (Self.graph self.new).terms ≡ Some id) }
        ensures id { IfOk result (λ id. slice_get (Self.graph self.new).terms id ≡ Some term.now) }
        ensures triples { (Self.graph self.new).triples ≡ (Self.graph self.old).triples }
        ensures term_limit { Self.term_limit self.new ≡ Self.term_limit self.old }
        ensures triple_limit { triple_limit self.new ≡ triple_limit self.old }
        ensures refused { OnErr result (Self.graph self.new ≡ Self.graph self.old) }
        ensures full { IfErr result (λ fault. fault ≡ PoolFault.Full
            → IsFullFor (pooled (Self.graph self.old) (Self.term_limit self.old)) term.now) }
        ensures memory { IfErr result (λ fault. fault ≡ PoolFault.Memory
            → HasRoomFor (pooled (Self.graph self.old) (Self.term_limit self.old)) term.now) }
        ensures room { OnOk result
            (IsFullFor (pooled (Self.graph self.old) (Self.term_limit self.old)) term.now → ⊥) };

    /// Adds a triple; `Ok(false)` says that it was held, and takes no memory. The pool stays.
    fn insert(&mut self, t: Triple) -> Result<bool, StoreFault>
        requires { IsKnownTriple (Self.graph self.old).terms t }
        ensures terms { (Self.graph self.new).terms ≡ (Self.graph self.old).terms }
        ensures term_limit { Self.term_limit self.new ≡ Self.term_limit self.old }
        ensures triple_limit { triple_limit self.new ≡ triple_limit self.old }
        ensures added { OnOk result (HasAlso (Self.graph self.old).triples (Self.graph self.new).triples t) }
        ensures new { IfOk result (λ new. IsTrue new ↔ (Contains (Self.graph self.old).triples t → ⊥)) }
        ensures count { IfOk result (λ new. length (Self.graph self.new).triples
            ≡ length (Self.graph self.old).triples + (if new then 1 else 0)) }
        ensures refused { OnErr result (Self.graph self.new ≡ Self.graph self.old) }
        ensures full { IfErr result (λ fault. fault ≡ StoreFault.TooMany
            → IsAtLimit (Self.graph self.old).triples (triple_limit self.old) t) }
        ensures memory { IfErr result (λ fault. fault ≡ StoreFault.Memory
            → HasRoomForTriple (Self.graph self.old).triples (triple_limit self.old) t) }
        ensures room { OnOk result (IsAtLimit (Self.graph self.old).triples (triple_limit self.old) t → ⊥) };

    /// Removes a triple; `true` says that it was held. The pool stays. It takes no memory.
    fn remove(&mut self, t: &Triple) -> bool
        ensures terms { (Self.graph self.new).terms ≡ (Self.graph self.old).terms }
        ensures term_limit { Self.term_limit self.new ≡ Self.term_limit self.old }
        ensures triple_limit { triple_limit self.new ≡ triple_limit self.old }
        ensures removed { IsWithout (Self.graph self.old).triples (Self.graph self.new).triples t.now }
        ensures held { IsTrue result ↔ Contains (Self.graph self.old).triples t.now }
        ensures count { length (Self.graph self.new).triples + (if result then 1 else 0)
            ≡ length (Self.graph self.old).triples };

    /// Removes these triples and adds those, all or none: the limit holds for what is left in the end. It
    /// takes memory for the added ones alone.
    fn exchange(&mut self, removed: &[Triple], added: &[Triple]) -> Result<(), StoreFault>
        requires patch { IsPatch (Self.graph self.old) added.now removed.now }
        ensures terms { (Self.graph self.new).terms ≡ (Self.graph self.old).terms }
        ensures term_limit { Self.term_limit self.new ≡ Self.term_limit self.old }
        ensures triple_limit { triple_limit self.new ≡ triple_limit self.old }
        ensures exchanged { OnOk result (SameMembers (Self.graph self.new).triples
            (patched (Self.graph self.old) added.now removed.now).triples) }
        ensures count { OnOk result (length (Self.graph self.new).triples
            ≡ length (patched (Self.graph self.old) added.now removed.now).triples) }
        ensures refused { OnErr result (Self.graph self.new ≡ Self.graph self.old) }
        ensures full { IfErr result (λ fault. fault ≡ StoreFault.TooMany → triple_limit self.old
            < length (patched (Self.graph self.old) added.now removed.now).triples) }
        ensures memory { IfErr result (λ fault. fault ≡ StoreFault.Memory
            → length (patched (Self.graph self.old) added.now removed.now).triples ≤ triple_limit self.old) }
        ensures room { OnOk result (length (patched (Self.graph self.old) added.now removed.now).triples
            ≤ triple_limit self.old) };

    /// Takes the terms from this number on out of the pool; the triples stay. It takes no memory.
    fn cut(&mut self, len: u32)
        requires vocabulary { 62 ≤ len }
        requires within { len ≤ length (Self.graph self.old).terms }
        requires unused { All (IsKnownTriple (take len (Self.graph self.old).terms))
            (Self.graph self.old).triples }
        ensures terms { (Self.graph self.new).terms ≡ take len (Self.graph self.old).terms }
        ensures triples { (Self.graph self.new).triples ≡ (Self.graph self.old).triples }
        ensures term_limit { Self.term_limit self.new ≡ Self.term_limit self.old }
        ensures triple_limit { triple_limit self.new ≡ triple_limit self.old };
}

/// Edits change no more than they say. After a term is entered the graph agrees with what it was on every
/// key; after a triple is inserted or removed, on every key that the triple does not touch.
pub fn edits_agree()
    ensures entered { (g h : Graph) (t : Term) → h.terms ≡ with_term g.terms t → h.triples ≡ g.triples
        → Agree g h IsAnyKey }
    ensures inserted { (g h : Graph) (t : Triple) → h.terms ≡ g.terms → HasAlso g.triples h.triples t
        → Agree g h (IsUntouched t) }
    ensures removed { (g h : Graph) (t : Triple) → h.terms ≡ g.terms → IsWithout g.triples h.triples t
        → Agree g h (IsUntouched t) }
{}
