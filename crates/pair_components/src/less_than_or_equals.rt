//! sh:lessThanOrEquals (SHACL, section 4.5.4).
ghost use Rattle.std.specs.Prelude.{◌≡◌};

use crate::orders::{Order, check_order};
use comp_core::kinds::LESS_THAN_OR_EQUALS;
use comp_core::{At, Component, Conform, Pair, ResultRow};
use graph_view::{GraphView, look_ups_agree};
use shx_term::{Id, Memory};
use std::alloc::Global;

/// Each value node is less than or equal to each object of the predicate.
#[derive(Drop)]
pub struct LessThanOrEquals {
    /// The predicate.
    pub value: Id,
}

impl LessThanOrEquals {
    /// The component with its parameter. It takes no memory.
    pub fn new(value: Id) -> LessThanOrEquals
        ensures { result.value ≡ value }
    {
        LessThanOrEquals { value }
    }
}

impl<'p> Component<'p> for LessThanOrEquals {
    type Known = ();

    ghost use Rattle.std.specs.Prelude.{[], ◌∷◌};
    ghost use Rattle.graph_view.specs.declared.key.Key.TheVariants.{Out};
    ghost use Rattle.pair_components.specs.LessThanOrEquals.{less_than_or_equals_hits};

    ghost knows = { λ known g. Unit };

    ghost is_read_of = { λ c terms. Unit };

    ghost numbers_of = { λ c. [] };

    ghost asks_of = { λ c vs. [] };

    ghost hits_of = { λ c g m at vs. less_than_or_equals_hits c g at vs };

    ghost reads_of = { λ c g r at vs. Out at.focus c.value ∷ [] };

    fn asks(&self, _values: &[Id], _out: &mut Vec<Pair>) -> Result<(), Memory> {
        Ok(())
    }

    fn check<V: GraphView, C: Conform>(
        &'p self,
        alloc: Global,
        view: &V,
        _conform: &C,
        _known: &mut (),
        at: At,
        values: &[Id],
        reads: &mut C::Noted,
        out: &mut Vec<ResultRow>,
    ) -> Result<(), Memory> {
        let objects = view.objects(alloc, at.focus, self.value, reads)?;
        check_order(
            alloc,
            view,
            Order::LessOrEqual,
            &objects,
            LESS_THAN_OR_EQUALS,
            at,
            values,
            out,
        )?;
        Ok(())
    }

    fn laws() {
        look_ups_agree();
    }
}
