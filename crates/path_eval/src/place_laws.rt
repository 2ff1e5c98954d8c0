//! Why a search over places finds what a path leads to, as contracts of functions that do nothing.
ghost use Rattle.std.specs.Prelude.{◌≡◌, ◌↔◌, ◌≤◌, ◌+◌, ◌*◌, ℕ, List, length, Contains};
ghost use Rattle.std.specs.List.{IsDistinct};
ghost use Rattle.graph_view.specs.declared.key.Key.{Key};
ghost use Rattle.graph_view.specs.Graph.{Graph, AllKnown};
ghost use Rattle.path_eval.specs.declared.direction.Direction.{Direction};
ghost use Rattle.path_eval.specs.declared.edge.State.{State};
ghost use Rattle.path_eval.specs.Route.{Route};
ghost use Rattle.path_eval.specs.Way.{way};
ghost use Rattle.path_eval.specs.inner.Course.{whole};
ghost use Rattle.path_eval.specs.inner.Laid.{after};
ghost use Rattle.path_eval.specs.inner.StateLaws.{same_state};
ghost use Rattle.path_eval.specs.inner.States.{IsReached, IsLookedUp, state_at, next_states};

/// The states that lead from the start lead to the end exactly where the path leads, and what is looked up at
/// them is what the path reads.
pub fn places_lead_where_paths_do()
    ensures nodes { (g : Graph) → AllKnown g → (d : Direction) (route : Route) (x y : ℕ)
        → IsReached (next_states g (whole d route).edges) (state_at 0 x) (state_at (whole d route).end y)
        ↔ Contains ((way g d route).to x) y }
    ensures reads { (g : Graph) → AllKnown g → (d : Direction) (route : Route) (x : ℕ) (k : Key)
        → IsLookedUp g (whole d route).edges (state_at 0 x) k ↔ Contains ((way g d route).reads x) k }
{}

/// No more states are reached than the places of a path times the nodes: those with a term, and the start.
/// The path has no more places than if it were laid between two.
pub fn few_states_are_reached()
    ensures states { (g : Graph) → AllKnown g → (d : Direction) (route : Route) (x : ℕ) (ts : List State)
        → IsDistinct same_state ts
        → ((t : State) → Contains ts t → IsReached (next_states g (whole d route).edges) (state_at 0 x) t)
        → length ts ≤ (whole d route).places * (length g.terms + 1) }
    ensures places { (d : Direction) (route : Route) → (whole d route).places ≤ after route 2 }
{}
