ghost use Rattle.std.specs.Prelude.{◌≡◌, ◌<◌, ◌^◌, IfNone, IfOk, IfSome, OnOk, length, nat_eq};
ghost use Rattle.std.specs.List.{IsDistinct};
ghost use Rattle.shape_order.specs.Chain.{IsRecursive};
ghost use Rattle.shape_order.specs.Order.{HasEach, IsOrdered};
ghost use Rattle.shape_order.specs.Refs.{IsWithin, refs_of};
ghost use Rattle.shape_order.specs.inner.Numbered.{AreNumbered, HasAlso};

use crate::listed::Listed;
use crate::references::{first_unlisted, shapes_of};
use crate::visits::Visit;
use shx_term::Memory;
use std::alloc::Global;

/// Puts a root in order, behind all that are reached from it; or a shape that reaches itself.
pub(crate) fn number_from(
    alloc: Global,
    refs: &[Vec<u32>],
    root: u32,
    order: &mut Listed,
    seen: &mut Listed,
) -> Result<Option<u32>, Memory>
    requires root { root < length refs.now }
    requires within { IsWithin (refs_of refs.now) (length refs.now) }
    requires numbered { AreNumbered (refs_of refs.now) (length refs.now) order.old seen.old }
    ensures ordered { OnOk result (IsOrdered (refs_of refs.now) order.new) }
    ensures numbered { IfOk result (λ found. IfNone found
        (AreNumbered (refs_of refs.now) (length refs.now) order.new seen.new)) }
    ensures also { IfOk result (λ found. IfNone found (HasAlso order.old order.new root)) }
    ensures recursive { IfOk result (λ found. IfSome found (IsRecursive (refs_of refs.now))) }
{
    if order.holds(root) {
        return Ok(None);
    }
    let mut visits: Vec<Visit> = Vec::new(alloc);
    seen.add(root)?;
    visits.push(Visit {
        shape: root,
        place: 0,
    })?;
    while let Some(visit) = visits.pop() {
        let shapes = shapes_of(refs, visit.shape);
        let Some(next) = first_unlisted(shapes, visit.place, order) else {
            order.add(visit.shape)?;
            continue;
        };
        if seen.holds(next.shape) {
            return Ok(Some(next.shape));
        }
        seen.add(next.shape)?;
        visits.push(Visit {
            shape: visit.shape,
            place: next.place,
        })?;
        visits.push(Visit {
            shape: next.shape,
            place: 0,
        })?;
    }
    Ok(None)
}

/// Shapes in order, and, if these are not all, a shape that reaches itself.
#[derive(Drop)]
pub(crate) struct Numbered {
    pub order: Listed,
    pub recursive: Option<u32>,
}

/// Puts all shapes in order, up to the first that reaches itself.
pub(crate) fn number_all(alloc: Global, refs: &[Vec<u32>]) -> Result<Numbered, Memory>
    requires within { IsWithin (refs_of refs.now) (length refs.now) }
    requires small { length refs.now < 2 ^ 32 }
    ensures ordered { IfOk result (λ found. IsOrdered (refs_of refs.now) found.order) }
    ensures all { IfOk result (λ found. IfNone found.recursive (HasEach (length refs.now) found.order)) }
    ensures recursive { IfOk result (λ found. IfSome found.recursive (IsRecursive (refs_of refs.now))) }
{
    let mut order = Listed::new(alloc);
    let mut seen = Listed::new(alloc);
    for root in 0..refs.len() as u32 {
        if let Some(shape) = number_from(alloc, refs, root, &mut order, &mut seen)? {
            return Ok(Numbered {
                order,
                recursive: Some(shape),
            });
        }
    }
    Ok(Numbered {
        order,
        recursive: None,
    })
}
