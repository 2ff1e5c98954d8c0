ghost use Rattle.std.specs.Prelude.{◌<◌, ◌^◌, IfOk, length, nat_eq};
ghost use Rattle.std.specs.List.{IsDistinct};
ghost use Rattle.shape_order.specs.Order.{HasEach};
ghost use Rattle.shape_order.specs.inner.Placed.{ArePlaced};

use shx_term::Memory;
use std::alloc::Global;

/// By shape, its place in an order of all shapes, of which there are so many.
pub(crate) fn places_of(alloc: Global, count: usize, order: &[u32]) -> Result<Vec<u32>, Memory>
    requires distinct { IsDistinct nat_eq order.now }
    requires each { HasEach count order.now }
    requires small { count < 2 ^ 32 }
    ensures { IfOk result (λ places. ArePlaced count order.now (length order.now) places.items) }
{
    let mut places: Vec<u32> = vec![in alloc; 0; count]?;
    for (place, shape) in order.iter().enumerate() {
        places[*shape as usize] = place as u32;
    }
    Ok(places)
}
