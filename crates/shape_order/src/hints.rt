ghost use Rattle.std.specs.Prelude.{◌≡◌, ◌<◌, ◌^◌, true, IfSome, length, slice_index};
ghost use Rattle.shape_order.specs.inner.Rising.{NeverFalls, AreAtLeast, AreAbove, RiseBelow};
ghost use Rattle.shape_order.specs.Refs.{refs_of};

use crate::listed::Listed;
use crate::references::{first_unlisted, shapes_of};
use crate::visits::Visit;
use shx_term::Memory;
use std::alloc::Global;

// The shapes that are reached from a root and were not met before, each behind those that it leads on to.
// Nothing is claimed of them, so no measure is owed: the loop breaks where nothing is left on the way.
fn reach_from(
    alloc: Global,
    refs: &[Vec<u32>],
    root: u32,
    seen: &mut Listed,
) -> Result<Vec<u32>, Memory> {
    let mut found = Vec::new(alloc);
    let mut visits: Vec<Visit> = Vec::new(alloc);
    if seen.holds(root) {
        return Ok(found);
    }
    seen.add(root)?;
    visits.push(Visit {
        shape: root,
        place: 0,
    })?;
    for _ in 0..u64::MAX {
        let Some(visit) = visits.pop() else { break };
        if (visit.shape as usize) >= refs.len() {
            continue;
        }
        match first_unlisted(shapes_of(refs, visit.shape), visit.place, seen) {
            None => found.push(visit.shape)?,
            Some(next) => {
                seen.add(next.shape)?;
                visits.push(Visit {
                    shape: visit.shape,
                    place: next.place,
                })?;
                visits.push(Visit {
                    shape: next.shape,
                    place: 0,
                })?;
            }
        }
    }
    Ok(found)
}

// For each shape those that refer to it.
fn referrers(alloc: Global, refs: &[Vec<u32>]) -> Result<Vec<Vec<u32>>, Memory> {
    let mut back: Vec<Vec<u32>> = Vec::with_capacity(alloc, refs.len())?;
    for _ in refs {
        back.push(Vec::new(alloc))?;
    }
    let mut at = 0u32;
    for shapes in refs {
        for shape in shapes {
            if (*shape as usize) < back.len() {
                back[*shape as usize].push(at)?;
            }
        }
        at = at.saturating_add(1);
    }
    Ok(back)
}

/// A number for each shape: equal for shapes that reach one another, and otherwise rising along references.
/// Nothing is claimed of them.
pub(crate) fn components(alloc: Global, refs: &[Vec<u32>]) -> Result<Vec<usize>, Memory> {
    let mut seen = Listed::new(alloc);
    let mut order: Vec<u32> = Vec::new(alloc);
    let mut root = 0u32;
    for _ in refs {
        let found = reach_from(alloc, refs, root, &mut seen)?;
        order.extend_from_slice(&found)?;
        root = root.saturating_add(1);
    }
    let back = referrers(alloc, refs)?;
    let mut seen = Listed::new(alloc);
    let mut numbers: Vec<usize> = vec![in alloc; 0; refs.len()]?;
    let mut number = 0usize;
    for root in order.iter().rev() {
        let found = reach_from(alloc, &back, *root, &mut seen)?;
        for shape in &found {
            if (*shape as usize) < numbers.len() {
                numbers[*shape as usize] = number;
            }
        }
        number = number.saturating_add(found.len());
    }
    Ok(numbers)
}

fn number_of(numbers: &[usize], shape: u32) -> usize
    ensures { result ≡ slice_index numbers.now shape }
{
    if (shape as usize) < numbers.len() {
        numbers[shape as usize]
    } else {
        0
    }
}

fn are_at_least(shapes: &[u32], numbers: &[usize], number: usize) -> bool
    ensures { result ≡ true → AreAtLeast shapes.now (slice_index numbers.now) number }
{
    for shape in shapes {
        if number_of(numbers, *shape) < number {
            return false;
        }
    }
    true
}

fn are_above(shapes: &[u32], numbers: &[usize], number: usize) -> bool
    ensures { result ≡ true → AreAbove shapes.now (slice_index numbers.now) number }
{
    for shape in shapes {
        if number_of(numbers, *shape) <= number {
            return false;
        }
    }
    true
}

/// Whether the numbers never fall along a reference.
pub(crate) fn never_fall(refs: &[Vec<u32>], numbers: &[usize]) -> bool
    requires { length refs.now < 2 ^ 32 }
    ensures { result ≡ true → NeverFalls (refs_of refs.now) (length refs.now) (slice_index numbers.now) }
{
    for shape in 0..refs.len() as u32 {
        if !are_at_least(shapes_of(refs, shape), numbers, number_of(numbers, shape)) {
            return false;
        }
    }
    true
}

/// The first shape with a reference along which the numbers do not rise.
pub(crate) fn first_not_rising(refs: &[Vec<u32>], numbers: &[usize]) -> Option<u32>
    requires { length refs.now < 2 ^ 32 }
    ensures within { IfSome result (λ shape. shape < length refs.now) }
    ensures below { IfSome result (RiseBelow (refs_of refs.now) (slice_index numbers.now)) }
{
    for shape in 0..refs.len() as u32 {
        if !are_above(shapes_of(refs, shape), numbers, number_of(numbers, shape)) {
            return Some(shape);
        }
    }
    None
}
