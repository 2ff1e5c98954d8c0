ghost use Rattle.std.specs.Prelude.{◌≡◌, ◌==◌, [], ◌∷◌, map, filter, length, IfOk, OnOk};
ghost use Rattle.path_eval.specs.inner.Reached.{Joins};
ghost use Rattle.path_eval.specs.inner.States.{state_at};

use crate::edge::State;
use crate::held::Held;
use shx_term::{Id, Memory};
use std::alloc::Global;
use std::marker::Model;

/// The states that a search has met, each once, in the order in which they were first met.
#[derive(Drop)]
pub(crate) struct States {
    held: Held,
}

impl Model for States {
    ghost use Rattle.std.specs.Prelude.{List};
    ghost use Rattle.std.specs.List.{IsDistinct};
    ghost use Rattle.path_eval.specs.declared.edge.State.{State};
    ghost use Rattle.path_eval.specs.inner.HeldStates.{held_states};
    ghost use Rattle.path_eval.specs.inner.StateLaws.{same_state};

    ghost Value = { List State };

    ghost view = { λ a. held_states a.held };

    ghost invariant = { λ a. IsDistinct same_state (held_states a.held) };
}

impl States {
    /// No states. It takes no memory.
    pub(crate) fn new(alloc: Global) -> States
        ensures { result ≡ [] }
    {
        States {
            held: Held::new(alloc),
        }
    }

    /// Adds a state behind the others, if it is not there.
    pub(crate) fn add(&mut self, state: State) -> Result<(), Memory>
        ensures { OnOk result (Joins self.old (state ∷ []) self.new) }
    {
        self.held.insert(state)
    }

    /// Adds these nodes at a place, but for those that are there.
    pub(crate) fn add_all(&mut self, place: u32, nodes: &[Id]) -> Result<(), Memory>
        ensures { OnOk result (Joins self.old (map (state_at place) nodes.now) self.new) }
    {
        for node in nodes {
            self.add(State { place, node: *node })?;
        }
        Ok(())
    }

    /// The states. It takes no memory.
    pub(crate) fn as_slice(&self) -> &[State]
        ensures { result.now ≡ self.now }
    {
        self.held.as_slice()
    }

    /// The nodes at a place.
    pub(crate) fn nodes_at(&self, alloc: Global, place: u32) -> Result<Vec<Id>, Memory>
        ensures { IfOk result (λ found. found.items
            ≡ map (λ t. t.node) (filter (λ t. t.place == place) self.now)) }
    {
        self.held
            .as_slice()
            .iter()
            .filter(|t| t.place == place)
            .map(|t| t.node)
            .collect(alloc)
    }
}
