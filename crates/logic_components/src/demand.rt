//! To how many of some shapes a value node has to conform.
ghost use Rattle.std.specs.Prelude.{◌≡◌, List, ◌++◌, All, OnOk};
ghost use Rattle.graph_view.specs.declared.key.Key.{Key};
ghost use Rattle.comp_core.specs.declared.pair.Pair.{Pair};
ghost use Rattle.comp_core.specs.Asking.{asked_keys, pairs_asked};
ghost use Rattle.comp_core.specs.Results.{each_unless};
ghost use Rattle.logic_components.specs.inner.Demands.{is_met, is_met_at};

use comp_core::{At, Conform, Kind, ResultRow, ShapeNo, add_unless, conforming};
use shx_term::{Id, Memory};
use std::alloc::Global;

/// To how many.
#[derive(Clone, Copy)]
pub(crate) enum Demand {
    None,
    Some,
    One,
    All,
}

impl Demand {
    // Whether so many are as many as there have to be, of the most that there may be.
    fn is_met(self, count: usize, most: usize) -> bool
        ensures { result ≡ is_met self count most }
    {
        match self {
            Demand::None => count == 0,
            Demand::Some => count > 0,
            Demand::One => count == 1,
            Demand::All => count == most,
        }
    }
}

/// Appends a result for each value node that does not conform to as many of the shapes. It asks about every
/// shape at every value node.
pub(crate) fn check_demand<C: Conform>(
    alloc: Global,
    conform: &C,
    demand: Demand,
    shapes: &[ShapeNo],
    kind: Kind,
    at: At,
    values: &[Id],
    reads: &mut C::Noted,
    out: &mut Vec<ResultRow>,
) -> Result<(), Memory>
    requires { All (C.holds conform.now) (pairs_asked shapes.now values.now) }
    ensures rows { OnOk result (out.new.items ≡ out.old.items
        ++ each_unless (is_met_at demand (C.rows_of conform.now) shapes.now) kind at values.now) }
    ensures reads { (r : Pair → List Key) → C.tells conform.now r
        → OnOk result (C.Noted.notes reads.old reads.new
        (asked_keys r shapes.now values.now)) }
{
    for v in values {
        let count = conforming(conform, shapes, *v, reads)?;
        let is_fine = demand.is_met(count, shapes.len());
        add_unless(alloc, is_fine, kind, at, *v, out)?;
    }
    Ok(())
}
