//! What the components of value ranges share (SHACL, section 4.3).
ghost use Rattle.std.specs.Prelude.{◌≡◌, ◌++◌, ◌<◌, length, OnOk};
ghost use Rattle.graph_view.specs.Graph.{HasTerms};
ghost use Rattle.graph_view.specs.Valid.{IsValidView};
ghost use Rattle.value_space.specs.ReadValues.{value_at};
ghost use Rattle.comp_core.specs.Results.{each_unless};
ghost use Rattle.comp_core.specs.TermTests.{are_so_at};
ghost use Rattle.value_components.specs.inner.Bounds.{is_within_term};

use crate::condition::{Condition, check_terms};
use comp_core::{At, Kind, ResultRow};
use graph_view::{GraphView, term_of};
use shx_term::{Id, Memory, Term};
use std::alloc::Global;
use value_space::{ReadLiteral, Value, is_less, is_less_eq};

/// On which side of a bound a term stands.
#[derive(Clone, Copy)]
pub(crate) enum Side {
    Above,
    From,
    Below,
    UpTo,
}

// A bound that was read.
#[derive(Clone, Copy)]
struct Bound<'a> {
    side: Side,
    read: Option<ReadLiteral<'a>>,
}

impl Condition for Bound<'_> {
    ghost use Rattle.value_space.specs.Compared.{compared_by, read_as};
    ghost use Rattle.value_components.specs.inner.Bounds.{is_within};

    ghost holds_of = { λ b t. is_within b.side (read_as b.read) (compared_by t) };

    fn holds(&self, term: &Term) -> bool {
        let value = ReadLiteral::of_term(term);
        match self.side {
            Side::Above => is_less(&self.read, &value),
            Side::From => is_less_eq(&self.read, &value),
            Side::Below => is_less(&value, &self.read),
            Side::UpTo => is_less_eq(&value, &self.read),
        }
    }
}

/// Appends a result for each value node that does not stand on this side of the bound, which was read before.
pub(crate) fn check_bound<V: GraphView>(
    alloc: Global,
    view: &V,
    side: Side,
    bound: Id,
    read: Option<Value>,
    kind: Kind,
    at: At,
    values: &[Id],
    out: &mut Vec<ResultRow>,
) -> Result<(), Memory>
    requires valid { IsValidView (V.graph view.now) }
    requires bound { bound < length (V.graph view.now).terms }
    requires read { read ≡ value_at (V.graph view.now).terms bound }
    requires values { HasTerms (V.graph view.now) values.now }
    ensures { OnOk result (out.new.items ≡ out.old.items
        ++ each_unless (are_so_at (is_within_term side) (V.graph view.now) bound) kind at values.now) }
{
    let condition = Bound {
        side,
        read: ReadLiteral::again(term_of(view, bound), read),
    };
    check_terms(alloc, view, &condition, kind, at, values, out)
}
