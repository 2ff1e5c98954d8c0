ghost use Rattle.std.specs.Prelude.{◌≡◌, ◌<◌, ◌≤◌, ◌+◌, ◌^◌, ℕ, nat_eq, IfNone, IfOk, IfSome};
ghost use Rattle.std.specs.Prelude.{length, map, slice_index, vec_len};
ghost use Rattle.std.specs.List.{IsDistinct};
ghost use Rattle.shape_order.specs.Levels.{above, AreLevels};
ghost use Rattle.shape_order.specs.Order.{HasEach, IsOrdered};
ghost use Rattle.shape_order.specs.Refs.{refs_of};
ghost use Rattle.shape_order.specs.inner.FirstAbove.{IsFirstAbove};

use crate::references::shapes_of;
use shx_term::Memory;
use std::alloc::Global;

// One more than the greatest level of some shapes; 0 where there are none.
fn level_above(shapes: &[u32], levels: &[u32]) -> u32
    requires within { (k : ℕ) → k < length shapes.now → slice_index shapes.now k < length levels.now }
    requires small { (k : ℕ) → slice_index levels.now k + 1 < 2 ^ 32 }
    ensures { result ≡ above (map (slice_index levels.now) shapes.now) }
{
    let mut level = 0;
    for shape in shapes {
        level = level.max(levels[*shape as usize] + 1);
    }
    level
}

/// The level of each shape.
pub(crate) fn levels_of(alloc: Global, refs: &[Vec<u32>], order: &[u32]) -> Result<Vec<u32>, Memory>
    requires ordered { IsOrdered (refs_of refs.now) order.now }
    requires distinct { IsDistinct nat_eq order.now }
    requires each { HasEach (length refs.now) order.now }
    requires small { length refs.now < 2 ^ 32 }
    ensures count { IfOk result (λ levels. vec_len levels ≡ length refs.now) }
    ensures levels { IfOk result (λ levels.
        AreLevels (refs_of refs.now) (length refs.now) (slice_index levels.items)) }
{
    let mut levels: Vec<u32> = vec![in alloc; 0; refs.len()]?;
    for shape in order {
        let level = level_above(shapes_of(refs, *shape), &levels);
        levels[*shape as usize] = level;
    }
    Ok(levels)
}

/// The least shape whose level is above a limit.
pub(crate) fn first_above(levels: &[u32], limit: u32) -> Option<u32>
    requires small { length levels.now < 2 ^ 32 }
    ensures none { IfNone result ((i : ℕ) → i < length levels.now → slice_index levels.now i ≤ limit) }
    ensures some { IfSome result (IsFirstAbove limit (length levels.now) (slice_index levels.now)) }
{
    for (shape, level) in levels.iter().enumerate() {
        if *level > limit {
            return Some(shape as u32);
        }
    }
    None
}
