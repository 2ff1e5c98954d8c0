//! What edits are as changes of several triples, which views stay valid, and what agreement of graphs keeps.
ghost use Rattle.std.specs.Prelude.{◌≡◌, ◌<◌, ◌↔◌, ℕ, List, [], ◌∷◌, ◌++◌, Some, length, take, slice_get};
ghost use Rattle.std.specs.Prelude.{All, Contains};
ghost use Rattle.shx_term.specs.Members.{SameMembers};
ghost use Rattle.shx_term.specs.Pool.{with_term};
ghost use Rattle.shx_term.specs.TripleTerms.{numbered};
ghost use Rattle.shx_term.specs.ValidTriples.{IsNotWide, IsValidTermTriple};
ghost use Rattle.shx_term.specs.declared.term.Term.{Term};
ghost use Rattle.shx_term.specs.declared.triple.Triple.{Triple};
ghost use Rattle.shx_term.specs.declared.triple.TermTriple.{TermTriple};
ghost use Rattle.graph_view.specs.declared.key.Key.{Key};
ghost use Rattle.graph_view.specs.Agree.{Agree, IsAnyKey};
ghost use Rattle.graph_view.specs.Graph.{Graph, IsKnownTriple, AllKnown, HasTerms, HasAlso, IsWithout};
ghost use Rattle.graph_view.specs.Patched.{patched, IsPatch};
ghost use Rattle.graph_view.specs.Valid.{IsValidTriple, IsValidView};

/// An edit of one triple is a change that adds or removes that triple alone, and no look-up tells a graph
/// with the same triples from the changed one. A change is taken back by one that adds what it removed and
/// removes what it added.
pub fn edits_are_patches()
    ensures inserted { (g h : Graph) (t : Triple) → HasAlso g.triples h.triples t
        → SameMembers (patched g (t ∷ []) []).triples h.triples }
    ensures inserted_agree { (g h : Graph) (t : Triple) → h.terms ≡ g.terms
        → HasAlso g.triples h.triples t → Agree (patched g (t ∷ []) []) h IsAnyKey }
    ensures removed { (g h : Graph) (t : Triple) → IsWithout g.triples h.triples t
        → SameMembers (patched g [] (t ∷ [])).triples h.triples }
    ensures removed_agree { (g h : Graph) (t : Triple) → h.terms ≡ g.terms
        → IsWithout g.triples h.triples t → Agree (patched g [] (t ∷ [])) h IsAnyKey }
    ensures exchanged { (g h : Graph) (added removed : List Triple) → h.terms ≡ g.terms
        → SameMembers h.triples (patched g added removed).triples
        → Agree (patched g added removed) h IsAnyKey }
    ensures back { (g : Graph) (added removed : List Triple) → IsPatch g added removed
        → SameMembers (patched (patched g added removed) removed added).triples g.triples }
    ensures back_is_patch { (g : Graph) (added removed : List Triple) → AllKnown g
        → IsPatch g added removed → IsPatch (patched g added removed) removed added }
{}

/// A valid view stays valid where a term is entered that is no wide literal, where valid triples are added,
/// where triples are removed, and where terms are cut off that no triple has. The numbers of a valid triple
/// of terms are one.
pub fn valid_views_stay()
    ensures entered { (g h : Graph) (t : Term) → IsValidView g → IsNotWide t
        → h.terms ≡ with_term g.terms t → h.triples ≡ g.triples → IsValidView h }
    ensures stated { (terms : List Term) (stated : TermTriple) (t : Triple)
        → numbered terms stated ≡ Some t → IsValidTermTriple stated → IsValidTriple terms t }
    ensures inserted { (g h : Graph) (t : Triple) → IsValidView g → IsValidTriple g.terms t
        → h.terms ≡ g.terms → HasAlso g.triples h.triples t → IsValidView h }
    ensures removed { (g h : Graph) (t : Triple) → IsValidView g
        → h.terms ≡ g.terms → IsWithout g.triples h.triples t → IsValidView h }
    ensures exchanged { (g h : Graph) (added removed : List Triple) → IsValidView g
        → All (IsValidTriple g.terms) added → h.terms ≡ g.terms
        → SameMembers h.triples (patched g added removed).triples → IsValidView h }
    ensures cut { (g h : Graph) (n : ℕ) → IsValidView g → h.terms ≡ take n g.terms
        → h.triples ≡ g.triples → All (IsKnownTriple h.terms) h.triples → IsValidView h }
{}

/// Where graphs agree, a number that has a term keeps it, and they agree on fewer keys. They agree on the
/// keys of two lists where they agree on those of each.
pub fn agreement_keeps()
    ensures term { (g h : Graph) (keys : List Key) (id : ℕ) → Agree g h (Contains keys)
        → id < length g.terms → slice_get g.terms id ≡ slice_get h.terms id }
    ensures known { (g h : Graph) (keys : List Key) (ids : List ℕ) → Agree g h (Contains keys)
        → HasTerms g ids → HasTerms h ids }
    ensures fewer { (g h : Graph) (keys fewer : List Key)
        → ((key : Key) → Contains fewer key → Contains keys key)
        → Agree g h (Contains keys) → Agree g h (Contains fewer) }
    ensures both { (g h : Graph) (ks ls : List Key) → Agree g h (Contains (ks ++ ls))
        ↔ (Agree g h (Contains ks) × Agree g h (Contains ls)) }
{}
