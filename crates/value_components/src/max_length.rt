//! sh:maxLength (SHACL, section 4.4.2).
ghost use Rattle.std.specs.Prelude.{◌≡◌, None};

use crate::lengths::{Limit, check_length};
use comp_core::kinds::MAX_LENGTH;
use comp_core::{At, Component, Conform, Pair, ResultRow};
use graph_view::GraphView;
use shx_term::{Id, Memory};
use std::alloc::Global;
use value_space::Value;

/// Each value node is no blank node, and has as many code points as the number says, or fewer.
#[derive(Drop)]
pub struct MaxLength {
    /// The greatest number of code points.
    pub value: Id,
    /// What was read of its term.
    pub read: Option<Value>,
}

impl MaxLength {
    /// The component with its parameter, of whose term nothing was read yet. It takes no memory.
    pub fn new(value: Id) -> MaxLength
        ensures value { result.value ≡ value }
        ensures read { result.read ≡ None }
    {
        MaxLength { value, read: None }
    }
}

impl<'p> Component<'p> for MaxLength {
    type Known = ();

    ghost use Rattle.std.specs.Prelude.{◌≡◌, [], ◌∷◌};
    ghost use Rattle.value_space.specs.ReadValues.{value_at};
    ghost use Rattle.value_components.specs.MaxLength.{max_length_hits};

    ghost knows = { λ known g. Unit };

    ghost is_read_of = { λ c terms. c.read ≡ value_at terms c.value };

    ghost numbers_of = { λ c. c.value ∷ [] };

    ghost asks_of = { λ c vs. [] };

    ghost hits_of = { λ c g m at vs. max_length_hits c g at vs };

    ghost reads_of = { λ c g r at vs. [] };

    fn asks(&self, _values: &[Id], _out: &mut Vec<Pair>) -> Result<(), Memory> {
        Ok(())
    }

    fn check<V: GraphView, C: Conform>(
        &'p self,
        alloc: Global,
        view: &V,
        _conform: &C,
        _known: &mut (),
        at: At,
        values: &[Id],
        _reads: &mut C::Noted,
        out: &mut Vec<ResultRow>,
    ) -> Result<(), Memory> {
        check_length(
            alloc,
            view,
            Limit::AtMost,
            self.value,
            self.read,
            MAX_LENGTH,
            at,
            values,
            out,
        )
    }

    fn laws() {}
}
