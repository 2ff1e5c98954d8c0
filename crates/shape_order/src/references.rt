ghost use Rattle.std.specs.Prelude.{◌≡◌, ◌<◌, ◌≤◌, ◌^◌, ℕ, true, false, IfNone, IfSome};
ghost use Rattle.std.specs.Prelude.{length, slice_index};
ghost use Rattle.shape_order.specs.Refs.{IsWithin, refs_of};
ghost use Rattle.shape_order.specs.inner.Search.{AreListed, IsNext};

use crate::listed::Listed;

/// A reference, and the place at which it stands.
#[derive(Clone, Copy)]
pub(crate) struct Reference {
    pub place: usize,
    pub shape: u32,
}

/// The shapes that a shape refers to.
pub(crate) fn shapes_of(refs: &[Vec<u32>], shape: u32) -> &[u32]
    requires { shape < length refs.now }
    ensures { result.now ≡ refs_of refs.now shape }
{
    &refs[shape as usize]
}

/// The first of some shapes, from a place on, that is not listed.
pub(crate) fn first_unlisted(shapes: &[u32], from: usize, listed: &Listed) -> Option<Reference>
    ensures none { IfNone result (AreListed shapes.now listed.now from (length shapes.now)) }
    ensures some { IfSome result (λ r. IsNext shapes.now listed.now from r) }
{
    let mut place = from;
    while place < shapes.len() {
        let shape = shapes[place];
        if !listed.holds(shape) {
            return Some(Reference { place, shape });
        }
        place += 1;
    }
    None
}

// Whether all of these are below so many.
fn are_below(shapes: &[u32], count: usize) -> bool
    ensures all { result ≡ true → (k : ℕ) → k < length shapes.now → slice_index shapes.now k < count }
    ensures some { result ≡ false → (k : ℕ) × (k < length shapes.now) × (count ≤ slice_index shapes.now k) }
{
    for shape in shapes {
        if *shape as usize >= count {
            return false;
        }
    }
    true
}

/// Whether all that is referred to is a shape, and the shapes are few enough to have numbers.
pub fn are_shapes(refs: &[Vec<u32>]) -> bool
    ensures within { result ≡ true → IsWithin (refs_of refs.now) (length refs.now) }
    ensures small { result ≡ true → length refs.now < 2 ^ 32 }
    ensures not { result ≡ false → IsWithin (refs_of refs.now) (length refs.now) → length refs.now < 2 ^ 32
        → ⊥ }
{
    if refs.len() > u32::MAX as usize {
        return false;
    }
    for shape in 0..refs.len() as u32 {
        if !are_below(shapes_of(refs, shape), refs.len()) {
            return false;
        }
    }
    true
}
