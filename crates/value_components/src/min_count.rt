//! sh:minCount (SHACL, section 4.2.1).
ghost use Rattle.std.specs.Prelude.{◌≡◌, None};

use comp_core::kinds::MIN_COUNT;
use comp_core::{At, Component, Conform, Pair, ResultRow, add_once_if};
use graph_view::{GraphView, term_of};
use shx_term::{Id, Memory};
use std::alloc::Global;
use value_space::{Value, is_fewer};

/// There are as many value nodes as the count says, or more.
#[derive(Drop)]
pub struct MinCount {
    /// The least count.
    pub value: Id,
    /// What was read of its term.
    pub read: Option<Value>,
}

impl MinCount {
    /// The component with its parameter, of whose term nothing was read yet. It takes no memory.
    pub fn new(value: Id) -> MinCount
        ensures value { result.value ≡ value }
        ensures read { result.read ≡ None }
    {
        MinCount { value, read: None }
    }
}

impl<'p> Component<'p> for MinCount {
    type Known = ();

    ghost use Rattle.std.specs.Prelude.{◌≡◌, [], ◌∷◌};
    ghost use Rattle.value_space.specs.ReadValues.{value_at};
    ghost use Rattle.value_components.specs.MinCount.{min_count_hits};

    ghost knows = { λ known g. Unit };

    ghost is_read_of = { λ c terms. c.read ≡ value_at terms c.value };

    ghost numbers_of = { λ c. c.value ∷ [] };

    ghost asks_of = { λ c vs. [] };

    ghost hits_of = { λ c g m at vs. min_count_hits c g at vs };

    ghost reads_of = { λ c g r at vs. [] };

    fn asks(&self, _values: &[Id], _out: &mut Vec<Pair>) -> Result<(), Memory> {
        Ok(())
    }

    fn check<V: GraphView, C: Conform>(
        &'p self,
        alloc: Global,
        view: &V,
        _conform: &C,
        _known: &mut (),
        at: At,
        values: &[Id],
        _reads: &mut C::Noted,
        out: &mut Vec<ResultRow>,
    ) -> Result<(), Memory> {
        let too_few = is_fewer(values.len(), term_of(view, self.value), self.read);
        add_once_if(alloc, too_few, MIN_COUNT, at, out)
    }

    fn laws() {}
}
