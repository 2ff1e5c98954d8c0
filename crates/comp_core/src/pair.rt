ghost use Rattle.std.specs.Prelude.{◌≡◌};
ghost use Rattle.comp_core.specs.Pairs.{answer_key};

use graph_view::Key;
use shx_term::Id;
use std::hash::{Hash, Hasher};

/// The number of a shape in a plan.
pub type ShapeNo = u32;

/// A shape and a node at which it is checked.
#[derive(Clone, Copy, Debug)]
pub struct Pair {
    pub shape: ShapeNo,
    pub node: Id,
}

/// Where a constraint is checked: the focus node, and the shape that states it.
#[derive(Clone, Copy, Debug, PartialEq, Eq)]
pub struct At {
    pub focus: Id,
    pub shape: ShapeNo,
}

impl Pair {
    /// The key of what was found of the pair.
    pub fn answer_key(&self) -> Key
        ensures { result ≡ answer_key self.now }
    {
        Key::Answer(self.shape, self.node)
    }
}

impl PartialEq for Pair {
    ghost use Rattle.std.specs.Cmp;
    ghost use Rattle.comp_core.specs.Pairs.{same_pair, same_pair_equiv};

    ghost eq = { same_pair };

    ghost laws = { Cmp.partial_equiv_from_equiv same_pair_equiv };

    fn eq(&self, other: &Self) -> bool {
        self.shape == other.shape && self.node == other.node
    }
}

impl Eq for Pair {
    ghost use Rattle.comp_core.specs.Pairs.{same_pair_equiv};

    ghost laws = { same_pair_equiv };
}

impl Hash for Pair {
    ghost use Rattle.std.proofs.Common.{ap};
    ghost use Rattle.comp_core.specs.Pairs.{hashed_pair, same_pair_exact};

    ghost hash_input = { hashed_pair };

    ghost respects_eq = { λ a b h. ap hashed_pair (same_pair_exact a b h) };

    fn hash<H: Hasher>(&self, state: &mut H) {
        self.shape.hash(state);
        self.node.hash(state);
    }
}
