//! sh:not (SHACL, section 4.6.1).
ghost use Rattle.std.specs.Prelude.{◌≡◌};

use crate::demand::{Demand, check_demand};
use comp_core::kinds::NOT;
use comp_core::{At, Component, Conform, Pair, ResultRow, ShapeNo, ask_shapes};
use graph_view::GraphView;
use shx_term::{Id, Memory};
use std::alloc::Global;

/// No value node conforms to the shape.
#[derive(Drop)]
pub struct Not {
    /// The node of the shape.
    pub value: Id,
    /// Its number.
    pub shape: ShapeNo,
}

impl Not {
    /// The component with its parameter. It takes no memory.
    pub fn new(value: Id, shape: ShapeNo) -> Not
        ensures value { result.value ≡ value }
        ensures shape { result.shape ≡ shape }
    {
        Not { value, shape }
    }
}

impl<'p> Component<'p> for Not {
    type Known = ();

    ghost use Rattle.std.specs.Prelude.{[], ◌∷◌};
    ghost use Rattle.comp_core.specs.Asking.{asked_keys, pairs_asked};
    ghost use Rattle.logic_components.specs.Not.{not_hits};

    ghost knows = { λ known g. Unit };

    ghost is_read_of = { λ c terms. Unit };

    ghost numbers_of = { λ c. [] };

    ghost asks_of = { λ c vs. pairs_asked (c.shape ∷ []) vs };

    ghost hits_of = { λ c g m at vs. not_hits c m at vs };

    ghost reads_of = { λ c g r at vs. asked_keys r (c.shape ∷ []) vs };

    fn asks(&self, values: &[Id], out: &mut Vec<Pair>) -> Result<(), Memory> {
        ask_shapes(&[self.shape], values, out)
    }

    fn check<V: GraphView, C: Conform>(
        &'p self,
        alloc: Global,
        _view: &V,
        conform: &C,
        _known: &mut (),
        at: At,
        values: &[Id],
        reads: &mut C::Noted,
        out: &mut Vec<ResultRow>,
    ) -> Result<(), Memory> {
        check_demand(
            alloc,
            conform,
            Demand::None,
            &[self.shape],
            NOT,
            at,
            values,
            reads,
            out,
        )
    }

    fn laws() {}
}
