//! sh:datatype (SHACL, section 4.1.2).
ghost use Rattle.std.specs.Prelude.{◌≡◌};

use crate::condition::{Condition, check_terms};
use comp_core::kinds::DATATYPE;
use comp_core::{At, Component, Conform, Pair, ResultRow};
use graph_view::{GraphView, term_of};
use shx_term::{Id, Memory, Term};
use std::alloc::Global;
use value_space::matches_datatype;

/// Each value node is a literal of the datatype, and not ill-typed.
#[derive(Drop)]
pub struct Datatype {
    /// The datatype.
    pub value: Id,
}

impl Datatype {
    /// The component with its parameter. It takes no memory.
    pub fn new(value: Id) -> Datatype
        ensures { result.value ≡ value }
    {
        Datatype { value }
    }
}

// What the datatype asks of a term.
#[derive(Clone, Copy)]
struct Typed<'a> {
    datatype: &'a Term,
}

impl Condition for Typed<'_> {
    ghost use Rattle.value_components.specs.Datatype.{is_typed_by};

    ghost holds_of = { λ c t. is_typed_by c.datatype.now t };

    fn holds(&self, term: &Term) -> bool {
        match (self.datatype, term) {
            (Term::Iri(datatype), Term::Lit(literal)) => matches_datatype(literal, datatype),
            _ => false,
        }
    }
}

impl<'p> Component<'p> for Datatype {
    type Known = ();

    ghost use Rattle.std.specs.Prelude.{[], ◌∷◌};
    ghost use Rattle.value_components.specs.Datatype.{datatype_hits};

    ghost knows = { λ known g. Unit };

    ghost is_read_of = { λ c terms. Unit };

    ghost numbers_of = { λ c. c.value ∷ [] };

    ghost asks_of = { λ c vs. [] };

    ghost hits_of = { λ c g m at vs. datatype_hits c g at vs };

    ghost reads_of = { λ c g r at vs. [] };

    fn asks(&self, _values: &[Id], _out: &mut Vec<Pair>) -> Result<(), Memory> {
        Ok(())
    }

    fn check<V: GraphView, C: Conform>(
        &'p self,
        alloc: Global,
        view: &V,
        _conform: &C,
        _known: &mut (),
        at: At,
        values: &[Id],
        _reads: &mut C::Noted,
        out: &mut Vec<ResultRow>,
    ) -> Result<(), Memory> {
        let typed = Typed {
            datatype: term_of(view, self.value),
        };
        check_terms(alloc, view, &typed, DATATYPE, at, values, out)
    }

    fn laws() {}
}
