//! sh:qualifiedMinCount with sh:qualifiedValueShape (SHACL, section 4.7.3).
ghost use Rattle.std.specs.Prelude.{◌≡◌, None};

use crate::qualified::{ask_qualified, qualified_count};
use comp_core::kinds::QUALIFIED_MIN_COUNT;
use comp_core::{At, Component, Conform, Pair, ResultRow, ShapeNo, add_once_if};
use graph_view::{GraphView, term_of};
use shx_term::{Id, Memory};
use std::alloc::Global;
use value_space::{Value, is_fewer};

/// As many value nodes as the number says, or more, conform to the shape and to none of its siblings.
pub struct QualifiedMinCount {
    /// The number.
    pub value: Id,
    /// What was read of its term.
    pub read: Option<Value>,
    /// The number of the shape.
    pub shape: ShapeNo,
    /// The numbers of its siblings.
    pub siblings: Vec<ShapeNo>,
}

impl Drop for QualifiedMinCount {
    fn drop(self) {
        let QualifiedMinCount {
            value: _value,
            read: _read,
            shape: _shape,
            siblings: _siblings,
        } = self;
    }
}

impl QualifiedMinCount {
    /// The component with its parameters, of whose number nothing was read yet. It takes no memory.
    pub fn new(value: Id, shape: ShapeNo, siblings: Vec<ShapeNo>) -> QualifiedMinCount
        ensures value { result.value ≡ value }
        ensures read { result.read ≡ None }
        ensures shape { result.shape ≡ shape }
        ensures siblings { result.siblings ≡ siblings }
    {
        QualifiedMinCount {
            value,
            read: None,
            shape,
            siblings,
        }
    }
}

impl<'p> Component<'p> for QualifiedMinCount {
    type Known = ();

    ghost use Rattle.std.specs.Prelude.{◌≡◌, [], ◌∷◌};
    ghost use Rattle.value_space.specs.ReadValues.{value_at};
    ghost use Rattle.comp_core.specs.Asking.{asked_keys, pairs_asked};
    ghost use Rattle.qualified_shapes.specs.QualifiedMinCount.{qualified_min_count_hits};

    ghost knows = { λ known g. Unit };

    ghost is_read_of = { λ c terms. c.read ≡ value_at terms c.value };

    ghost numbers_of = { λ c. c.value ∷ [] };

    ghost asks_of = { λ c vs. pairs_asked (c.shape ∷ c.siblings.items) vs };

    ghost hits_of = { λ c g m at vs. qualified_min_count_hits c g m at vs };

    ghost reads_of = { λ c g r at vs. asked_keys r (c.shape ∷ c.siblings.items) vs };

    fn asks(&self, values: &[Id], out: &mut Vec<Pair>) -> Result<(), Memory> {
        ask_qualified(self.shape, &self.siblings, values, out)
    }

    fn check<V: GraphView, C: Conform>(
        &'p self,
        alloc: Global,
        view: &V,
        conform: &C,
        _known: &mut (),
        at: At,
        values: &[Id],
        reads: &mut C::Noted,
        out: &mut Vec<ResultRow>,
    ) -> Result<(), Memory> {
        let count = qualified_count(conform, self.shape, &self.siblings, values, reads)?;
        let is_result = is_fewer(count, term_of(view, self.value), self.read);
        add_once_if(alloc, is_result, QUALIFIED_MIN_COUNT, at, out)?;
        Ok(())
    }

    fn laws() {}
}
