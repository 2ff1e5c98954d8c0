use crate::Direction;
use shx_term::Id;
use std::hash::{Hash, Hasher};

/// What an edge asks for.
#[derive(Clone, Copy, Debug)]
pub enum Label {
    /// Nothing: the node stays.
    Free,
    /// A step along a predicate.
    Step(Direction, Id),
}

/// From one place of a path to another.
#[derive(Clone, Copy, Debug)]
pub struct Edge {
    pub from: u32,
    pub label: Label,
    pub to: u32,
}

/// A place of a path, and a node at it.
#[derive(Clone, Copy, Debug)]
pub struct State {
    pub place: u32,
    pub node: Id,
}

impl PartialEq for State {
    ghost use Rattle.std.specs.Cmp;
    ghost use Rattle.path_eval.specs.inner.StateLaws.{same_state, same_state_equiv};

    ghost eq = { same_state };

    ghost laws = { Cmp.partial_equiv_from_equiv same_state_equiv };

    fn eq(&self, other: &Self) -> bool {
        self.place == other.place && self.node == other.node
    }
}

impl Eq for State {
    ghost use Rattle.path_eval.specs.inner.StateLaws.{same_state_equiv};

    ghost laws = { same_state_equiv };
}

impl Hash for State {
    ghost use Rattle.std.proofs.Common.{ap};
    ghost use Rattle.path_eval.specs.inner.StateLaws.{state_hash_input, same_state_exact};

    ghost hash_input = { state_hash_input };

    ghost respects_eq = { λ a b h. ap state_hash_input (same_state_exact a b h) };

    fn hash<H: Hasher>(&self, state: &mut H) {
        self.place.hash(state);
        self.node.hash(state);
    }
}
