//! sh:node (SHACL, section 4.7.1).
ghost use Rattle.std.specs.Prelude.{◌≡◌};

use comp_core::kinds::NODE;
use comp_core::{At, Component, Conform, Pair, ResultRow, ShapeNo, add_resting_on, ask_shapes};
use graph_view::GraphView;
use shx_term::{Id, Memory};
use std::alloc::Global;

/// Each value node conforms to the shape. Where one does not, its results at the shape are the details of the
/// result.
#[derive(Drop)]
pub struct Node {
    /// The node of the shape.
    pub value: Id,
    /// Its number.
    pub shape: ShapeNo,
}

impl Node {
    /// The component with its parameter. It takes no memory.
    pub fn new(value: Id, shape: ShapeNo) -> Node
        ensures value { result.value ≡ value }
        ensures shape { result.shape ≡ shape }
    {
        Node { value, shape }
    }
}

impl<'p> Component<'p> for Node {
    type Known = ();

    ghost use Rattle.std.specs.Prelude.{[], ◌∷◌};
    ghost use Rattle.comp_core.specs.Asking.{asked_keys, pairs_asked};
    ghost use Rattle.logic_components.specs.Node.{node_hits};

    ghost knows = { λ known g. Unit };

    ghost is_read_of = { λ c terms. Unit };

    ghost numbers_of = { λ c. [] };

    ghost asks_of = { λ c vs. pairs_asked (c.shape ∷ []) vs };

    ghost hits_of = { λ c g m at vs. node_hits c m at vs };

    ghost reads_of = { λ c g r at vs. asked_keys r (c.shape ∷ []) vs };

    fn asks(&self, values: &[Id], out: &mut Vec<Pair>) -> Result<(), Memory> {
        ask_shapes(&[self.shape], values, out)
    }

    fn check<V: GraphView, C: Conform>(
        &'p self,
        alloc: Global,
        _view: &V,
        conform: &C,
        _known: &mut (),
        at: At,
        values: &[Id],
        reads: &mut C::Noted,
        out: &mut Vec<ResultRow>,
    ) -> Result<(), Memory> {
        for v in values {
            let pair = Pair {
                shape: self.shape,
                node: *v,
            };
            let found = conform.results(&pair, reads)?;
            add_resting_on(alloc, found, NODE, at, *v, out)?;
        }
        Ok(())
    }

    fn laws() {}
}
