ghost use Rattle.std.specs.Prelude.{◌<◌, ◌^◌, ◌≢◌, Err, IfErr, IfOk, length};
ghost use Rattle.shape_order.specs.Outcome.{IsExact, IsFault, IsNumbering};
ghost use Rattle.shape_order.specs.Refs.{IsWithin, refs_of};

use crate::cycles::least_cycle;
use crate::levels::{first_above, levels_of};
use crate::numbering::number_all;
use crate::places::places_of;
use std::alloc::{AllocError, Global};

/// Shapes in an order in which each stands behind those that it refers to.
#[derive(Drop)]
pub struct Numbering {
    /// All shapes, each once.
    pub order: Vec<u32>,
    /// By shape, its place in the order. What a shape refers to has lower places.
    pub places: Vec<u32>,
    /// By shape, how many references lead on from it, at most: 0 where it refers to none.
    pub levels: Vec<u32>,
}

/// Why shapes have no order that may be used.
#[derive(Drop)]
pub enum OrderFault {
    /// Shapes that reach themselves (SHACL, section 3.4.3), in a ring: a reference leads from each to the one
    /// behind it, and from the last to the start, which is the least of all that reach themselves.
    Recursive { cycle: Vec<u32> },
    /// The least shape whose level is above the limit, where no shape reaches itself.
    TooDeep { shape: u32 },
    Memory,
}

impl From<AllocError> for OrderFault {
    ghost use Rattle.std.specs.Prelude.{◌≡◌};
    ghost use Rattle.shape_order.specs.declared.ordering.OrderFault.{OrderFault};

    ghost from_gives = { λ _ fault. fault ≡ OrderFault.Memory };

    fn from(_: AllocError) -> Self {
        OrderFault::Memory
    }
}

/// The order of shapes, where none reaches itself and none has a level above the limit.
///
/// It takes time in proportion to shapes and references, whatever it finds: also a cycle at the end of a long
/// chain is found by one search. No search is a recursion.
///
/// # Errors
/// What stands in the way, as [`OrderFault`] says; a cycle goes before a shape that is too deep.
pub fn order(alloc: Global, refs: &[Vec<u32>], depth_limit: u32) -> Result<Numbering, OrderFault>
    requires within { IsWithin (refs_of refs.now) (length refs.now) }
    requires small { length refs.now < 2 ^ 32 }
    ensures numbering { IfOk result (IsNumbering (refs_of refs.now) (length refs.now) depth_limit) }
    ensures fault { IfErr result (IsFault (refs_of refs.now) depth_limit) }
    ensures exact { result ≢ Err OrderFault.Memory → IsExact (refs_of refs.now) depth_limit result }
{
    let numbered = number_all(alloc, refs)?;
    if let Some(known) = numbered.recursive {
        let cycle = least_cycle(alloc, refs, &numbered.order, known)?;
        return Err(OrderFault::Recursive { cycle });
    }
    let order = numbered.order.into_shapes();
    let levels = levels_of(alloc, refs, &order)?;
    if let Some(shape) = first_above(&levels, depth_limit) {
        return Err(OrderFault::TooDeep { shape });
    }
    let places = places_of(alloc, refs.len(), &order)?;
    Ok(Numbering {
        order,
        places,
        levels,
    })
}
