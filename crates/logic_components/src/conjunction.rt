//! sh:and (SHACL, section 4.6.2).
ghost use Rattle.std.specs.Prelude.{◌≡◌};

use crate::demand::{Demand, check_demand};
use comp_core::kinds::AND;
use comp_core::{At, Component, Conform, Pair, ResultRow, ShapeNo, ask_shapes};
use graph_view::GraphView;
use shx_term::{Id, Memory};
use std::alloc::Global;

/// Each value node conforms to each of the shapes.
pub struct And {
    /// The head of the list.
    pub value: Id,
    /// The numbers of its members, in order.
    pub shapes: Vec<ShapeNo>,
}

impl Drop for And {
    fn drop(self) {
        let And {
            value: _value,
            shapes: _shapes,
        } = self;
    }
}

impl And {
    /// The component with its list and the members of that. It takes no memory.
    pub fn new(value: Id, shapes: Vec<ShapeNo>) -> And
        ensures value { result.value ≡ value }
        ensures shapes { result.shapes ≡ shapes }
    {
        And { value, shapes }
    }
}

impl<'p> Component<'p> for And {
    type Known = ();

    ghost use Rattle.std.specs.Prelude.{[]};
    ghost use Rattle.comp_core.specs.Asking.{asked_keys, pairs_asked};
    ghost use Rattle.logic_components.specs.And.{and_hits};

    ghost knows = { λ known g. Unit };

    ghost is_read_of = { λ c terms. Unit };

    ghost numbers_of = { λ c. [] };

    ghost asks_of = { λ c vs. pairs_asked c.shapes.items vs };

    ghost hits_of = { λ c g m at vs. and_hits c m at vs };

    ghost reads_of = { λ c g r at vs. asked_keys r c.shapes.items vs };

    fn asks(&self, values: &[Id], out: &mut Vec<Pair>) -> Result<(), Memory> {
        ask_shapes(&self.shapes, values, out)
    }

    fn check<V: GraphView, C: Conform>(
        &'p self,
        alloc: Global,
        _view: &V,
        conform: &C,
        _known: &mut (),
        at: At,
        values: &[Id],
        reads: &mut C::Noted,
        out: &mut Vec<ResultRow>,
    ) -> Result<(), Memory> {
        check_demand(
            alloc,
            conform,
            Demand::All,
            &self.shapes,
            AND,
            at,
            values,
            reads,
            out,
        )
    }

    fn laws() {}
}
