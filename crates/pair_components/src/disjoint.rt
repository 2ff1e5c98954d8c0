//! sh:disjoint (SHACL, section 4.5.2).
ghost use Rattle.std.specs.Prelude.{◌≡◌};

use crate::members::check_members;
use comp_core::kinds::DISJOINT;
use comp_core::{At, Component, Conform, Pair, ResultRow};
use graph_view::{GraphView, look_ups_agree};
use shx_term::{Id, Memory};
use std::alloc::Global;

/// No value node is an object of the predicate.
#[derive(Drop)]
pub struct Disjoint {
    /// The predicate.
    pub value: Id,
}

impl Disjoint {
    /// The component with its parameter. It takes no memory.
    pub fn new(value: Id) -> Disjoint
        ensures { result.value ≡ value }
    {
        Disjoint { value }
    }
}

impl<'p> Component<'p> for Disjoint {
    type Known = ();

    ghost use Rattle.std.specs.Prelude.{[], ◌∷◌};
    ghost use Rattle.graph_view.specs.declared.key.Key.TheVariants.{Out};
    ghost use Rattle.pair_components.specs.Disjoint.{disjoint_hits};

    ghost knows = { λ known g. Unit };

    ghost is_read_of = { λ c terms. Unit };

    ghost numbers_of = { λ c. [] };

    ghost asks_of = { λ c vs. [] };

    ghost hits_of = { λ c g m at vs. disjoint_hits c g at vs };

    ghost reads_of = { λ c g r at vs. Out at.focus c.value ∷ [] };

    fn asks(&self, _values: &[Id], _out: &mut Vec<Pair>) -> Result<(), Memory> {
        Ok(())
    }

    fn check<V: GraphView, C: Conform>(
        &'p self,
        alloc: Global,
        view: &V,
        _conform: &C,
        _known: &mut (),
        at: At,
        values: &[Id],
        reads: &mut C::Noted,
        out: &mut Vec<ResultRow>,
    ) -> Result<(), Memory> {
        let objects = view.objects(alloc, at.focus, self.value, reads)?;
        check_members(alloc, &objects, false, DISJOINT, at, values, out)?;
        Ok(())
    }

    fn laws() {
        look_ups_agree();
    }
}
