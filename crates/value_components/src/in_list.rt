//! sh:in (SHACL, section 4.8.3).
ghost use Rattle.std.specs.Prelude.{◌≡◌};

use comp_core::kinds::IN;
use comp_core::{At, Component, Conform, Pair, ResultRow, add_unless};
use graph_view::GraphView;
use id_list::IdList;
use shx_term::{Id, Memory};
use std::alloc::Global;

/// Each value node is a member of the list.
pub struct In {
    /// The head of the list.
    pub value: Id,
    /// Its members, in order.
    pub members: IdList,
}

impl Drop for In {
    fn drop(self) {
        let In {
            value: _value,
            members: _members,
        } = self;
    }
}

impl In {
    /// The component with its list and the members of that. It takes no memory.
    pub fn new(value: Id, members: IdList) -> In
        ensures value { result.value ≡ value }
        ensures members { result.members ≡ members }
    {
        In { value, members }
    }
}

impl<'p> Component<'p> for In {
    type Known = ();

    ghost use Rattle.std.specs.Prelude.{[]};
    ghost use Rattle.value_components.specs.InList.{in_hits};

    ghost knows = { λ known g. Unit };

    ghost is_read_of = { λ c terms. Unit };

    ghost numbers_of = { λ c. [] };

    ghost asks_of = { λ c vs. [] };

    ghost hits_of = { λ c g m at vs. in_hits c at vs };

    ghost reads_of = { λ c g r at vs. [] };

    fn asks(&self, _values: &[Id], _out: &mut Vec<Pair>) -> Result<(), Memory> {
        Ok(())
    }

    fn check<V: GraphView, C: Conform>(
        &'p self,
        alloc: Global,
        _view: &V,
        _conform: &C,
        _known: &mut (),
        at: At,
        values: &[Id],
        _reads: &mut C::Noted,
        out: &mut Vec<ResultRow>,
    ) -> Result<(), Memory> {
        for v in values {
            let is_fine = self.members.has(*v);
            add_unless(alloc, is_fine, IN, at, *v, out)?;
        }
        Ok(())
    }

    fn laws() {}
}
