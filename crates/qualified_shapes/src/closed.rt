//! sh:closed with sh:ignoredProperties (SHACL, section 4.8.1).
ghost use Rattle.std.specs.Prelude.{◌≡◌};

use crate::triples::check_closed;
use comp_core::{At, Component, Conform, Pair, ResultRow};
use graph_view::{GraphView, look_ups_agree};
use id_list::IdList;
use shx_term::{Id, Memory};
use std::alloc::Global;

/// The value nodes have no predicates but those that are permitted or ignored.
pub struct Closed {
    /// The literal `true`.
    pub value: Id,
    /// The paths of the property shapes that are IRIs.
    pub permitted: IdList,
    /// The predicates that are ignored.
    pub ignored: IdList,
}

impl Drop for Closed {
    fn drop(self) {
        let Closed {
            value: _value,
            permitted: _permitted,
            ignored: _ignored,
        } = self;
    }
}

impl Closed {
    /// The component with its parameters. It takes no memory.
    pub fn new(value: Id, permitted: IdList, ignored: IdList) -> Closed
        ensures value { result.value ≡ value }
        ensures permitted { result.permitted ≡ permitted }
        ensures ignored { result.ignored ≡ ignored }
    {
        Closed {
            value,
            permitted,
            ignored,
        }
    }
}

impl<'p> Component<'p> for Closed {
    type Known = ();

    ghost use Rattle.std.specs.Prelude.{[]};
    ghost use Rattle.qualified_shapes.specs.Closed.{closed_hits, closed_reads};

    ghost knows = { λ known g. Unit };

    ghost is_read_of = { λ c terms. Unit };

    ghost numbers_of = { λ c. [] };

    ghost asks_of = { λ c vs. [] };

    ghost hits_of = { λ c g m at vs. closed_hits c g at vs };

    ghost reads_of = { λ c g r at vs. closed_reads vs };

    fn asks(&self, _values: &[Id], _out: &mut Vec<Pair>) -> Result<(), Memory> {
        Ok(())
    }

    fn check<V: GraphView, C: Conform>(
        &'p self,
        alloc: Global,
        view: &V,
        _conform: &C,
        _known: &mut (),
        at: At,
        values: &[Id],
        reads: &mut C::Noted,
        out: &mut Vec<ResultRow>,
    ) -> Result<(), Memory> {
        let permitted = &self.permitted;
        let ignored = &self.ignored;
        check_closed(alloc, view, permitted, ignored, at, values, reads, out)
    }

    fn laws() {
        look_ups_agree();
    }
}
