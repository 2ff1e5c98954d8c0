//! sh:property (SHACL, section 4.7.2).
ghost use Rattle.std.specs.Prelude.{◌≡◌};

use comp_core::{At, Component, Conform, Pair, ResultRow, ShapeNo, add_copies, ask_shapes};
use graph_view::GraphView;
use shx_term::{Id, Memory};
use std::alloc::Global;

/// Each value node has no results at the property shape. Where it has some, these are the results.
#[derive(Drop)]
pub struct Property {
    /// The node of the shape.
    pub value: Id,
    /// Its number.
    pub shape: ShapeNo,
}

impl Property {
    /// The component with its parameter. It takes no memory.
    pub fn new(value: Id, shape: ShapeNo) -> Property
        ensures value { result.value ≡ value }
        ensures shape { result.shape ≡ shape }
    {
        Property { value, shape }
    }
}

impl<'p> Component<'p> for Property {
    type Known = ();

    ghost use Rattle.std.specs.Prelude.{[], ◌∷◌};
    ghost use Rattle.comp_core.specs.Asking.{asked_keys, pairs_asked};
    ghost use Rattle.logic_components.specs.Property.{property_hits};

    ghost knows = { λ known g. Unit };

    ghost is_read_of = { λ c terms. Unit };

    ghost numbers_of = { λ c. [] };

    ghost asks_of = { λ c vs. pairs_asked (c.shape ∷ []) vs };

    ghost hits_of = { λ c g m at vs. property_hits c m vs };

    ghost reads_of = { λ c g r at vs. asked_keys r (c.shape ∷ []) vs };

    fn asks(&self, values: &[Id], out: &mut Vec<Pair>) -> Result<(), Memory> {
        ask_shapes(&[self.shape], values, out)
    }

    /// It appends the results of the value nodes at the shape as they are, by value node.
    fn check<V: GraphView, C: Conform>(
        &'p self,
        alloc: Global,
        _view: &V,
        conform: &C,
        _known: &mut (),
        _at: At,
        values: &[Id],
        reads: &mut C::Noted,
        out: &mut Vec<ResultRow>,
    ) -> Result<(), Memory> {
        for v in values {
            let pair = Pair {
                shape: self.shape,
                node: *v,
            };
            add_copies(alloc, conform.results(&pair, reads)?, out)?;
        }
        Ok(())
    }

    fn laws() {}
}
