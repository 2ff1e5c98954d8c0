ghost use Rattle.std.specs.Prelude.{◌≡◌, IfOk};
ghost use Rattle.shape_order.specs.inner.Visits.{way_of};

use shx_term::Memory;
use std::alloc::Global;

/// A shape on the way of a search, and the place of its next reference.
#[derive(Clone, Copy)]
pub(crate) struct Visit {
    pub shape: u32,
    pub place: usize,
}

/// The shapes on a way.
pub(crate) fn shapes_on(alloc: Global, visits: &[Visit]) -> Result<Vec<u32>, Memory>
    ensures { IfOk result (λ shapes. shapes.items ≡ way_of visits.now) }
{
    visits.iter().map(|visit| visit.shape).collect(alloc)
}
