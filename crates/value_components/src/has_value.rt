//! sh:hasValue (SHACL, section 4.8.2).
ghost use Rattle.std.specs.Prelude.{◌≡◌};

use comp_core::kinds::HAS_VALUE;
use comp_core::{At, Component, Conform, Pair, ResultRow, add_once_if};
use graph_view::GraphView;
use shx_term::{Id, Memory};
use std::alloc::Global;

/// The value is one of the value nodes.
#[derive(Drop)]
pub struct HasValue {
    /// The value that is asked for.
    pub value: Id,
}

impl HasValue {
    /// The component with its parameter. It takes no memory.
    pub fn new(value: Id) -> HasValue
        ensures { result.value ≡ value }
    {
        HasValue { value }
    }
}

impl<'p> Component<'p> for HasValue {
    type Known = ();

    ghost use Rattle.std.specs.Prelude.{[]};
    ghost use Rattle.value_components.specs.HasValue.{has_value_hits};

    ghost knows = { λ known g. Unit };

    ghost is_read_of = { λ c terms. Unit };

    ghost numbers_of = { λ c. [] };

    ghost asks_of = { λ c vs. [] };

    ghost hits_of = { λ c g m at vs. has_value_hits c at vs };

    ghost reads_of = { λ c g r at vs. [] };

    fn asks(&self, _values: &[Id], _out: &mut Vec<Pair>) -> Result<(), Memory> {
        Ok(())
    }

    fn check<V: GraphView, C: Conform>(
        &'p self,
        alloc: Global,
        _view: &V,
        _conform: &C,
        _known: &mut (),
        at: At,
        values: &[Id],
        _reads: &mut C::Noted,
        out: &mut Vec<ResultRow>,
    ) -> Result<(), Memory> {
        let is_missing = !values.contains(&self.value);
        add_once_if(alloc, is_missing, HAS_VALUE, at, out)
    }

    fn laws() {}
}
