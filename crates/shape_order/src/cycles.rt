ghost use Rattle.std.specs.Prelude.{◌<◌, ◌^◌, IfNone, IfOk, IfSome, length};
ghost use Rattle.shape_order.specs.Chain.{IsCycle, IsLeastCycle, IsRecursive};
ghost use Rattle.shape_order.specs.Order.{IsOrdered};
ghost use Rattle.shape_order.specs.Refs.{IsWithin, refs_of};

use crate::hints::{components, first_not_rising, never_fall};
use crate::listed::Listed;
use crate::references::{first_unlisted, shapes_of};
use crate::visits::{Visit, shapes_on};
use shx_term::Memory;
use std::alloc::Global;

/// A cycle from a shape, if it reaches itself. Those that are in order do not.
pub(crate) fn cycle_from(
    alloc: Global,
    refs: &[Vec<u32>],
    order: &Listed,
    start: u32,
) -> Result<Option<Vec<u32>>, Memory>
    requires start { start < length refs.now }
    requires within { IsWithin (refs_of refs.now) (length refs.now) }
    requires ordered { IsOrdered (refs_of refs.now) order.now }
    ensures cycle { IfOk result (λ found. IfSome found (λ cycle.
        IsCycle (refs_of refs.now) start cycle.items)) }
    ensures none { IfOk result (λ found. IfNone found (IsRecursive (refs_of refs.now) start → ⊥)) }
{
    if order.holds(start) {
        return Ok(None);
    }
    let mut seen = Listed::new(alloc);
    let mut visits: Vec<Visit> = Vec::new(alloc);
    visits.push(Visit {
        shape: start,
        place: 0,
    })?;
    while let Some(visit) = visits.pop() {
        let shapes = shapes_of(refs, visit.shape);
        let Some(next) = first_unlisted(shapes, visit.place, &seen) else {
            continue;
        };
        visits.push(Visit {
            shape: visit.shape,
            place: next.place,
        })?;
        if next.shape == start {
            let cycle = shapes_on(alloc, &visits)?;
            return Ok(Some(cycle));
        }
        seen.add(next.shape)?;
        visits.push(Visit {
            shape: next.shape,
            place: 0,
        })?;
    }
    Ok(None)
}

// The cycle from the least shape that reaches itself, by numbers that turn out to rise along references
// elsewhere; none where the numbers do not show it.
fn cycle_by_numbers(
    alloc: Global,
    refs: &[Vec<u32>],
    order: &Listed,
) -> Result<Option<Vec<u32>>, Memory>
    requires within { IsWithin (refs_of refs.now) (length refs.now) }
    requires ordered { IsOrdered (refs_of refs.now) order.now }
    requires small { length refs.now < 2 ^ 32 }
    ensures { IfOk result (λ found. IfSome found (λ cycle. IsLeastCycle (refs_of refs.now) cycle.items)) }
{
    let numbers = components(alloc, refs)?;
    if !never_fall(refs, &numbers) {
        return Ok(None);
    }
    let Some(shape) = first_not_rising(refs, &numbers) else {
        return Ok(None);
    };
    cycle_from(alloc, refs, order, shape)
}

// The same, where a shape is known that reaches itself, by a search from each shape in turn.
fn cycle_in_turn(
    alloc: Global,
    refs: &[Vec<u32>],
    order: &Listed,
    known: u32,
) -> Result<Vec<u32>, Memory>
    requires within { IsWithin (refs_of refs.now) (length refs.now) }
    requires ordered { IsOrdered (refs_of refs.now) order.now }
    requires known { IsRecursive (refs_of refs.now) known }
    ensures { IfOk result (λ cycle. IsLeastCycle (refs_of refs.now) cycle.items) }
{
    let mut shape = 0;
    loop {
        if let Some(cycle) = cycle_from(alloc, refs, order, shape)? {
            return Ok(cycle);
        }
        shape += 1;
    }
}

/// A cycle from the least shape that reaches itself, where one is known that does.
pub(crate) fn least_cycle(
    alloc: Global,
    refs: &[Vec<u32>],
    order: &Listed,
    known: u32,
) -> Result<Vec<u32>, Memory>
    requires within { IsWithin (refs_of refs.now) (length refs.now) }
    requires ordered { IsOrdered (refs_of refs.now) order.now }
    requires known { IsRecursive (refs_of refs.now) known }
    requires small { length refs.now < 2 ^ 32 }
    ensures { IfOk result (λ cycle. IsLeastCycle (refs_of refs.now) cycle.items) }
{
    if let Some(cycle) = cycle_by_numbers(alloc, refs, order)? {
        return Ok(cycle);
    }
    cycle_in_turn(alloc, refs, order, known)
}
