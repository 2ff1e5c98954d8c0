//! The numbers of the shapes that are named.
ghost use Rattle.std.specs.Prelude.{◌≡◌, All, Contains, IfOk, Some, map, slice_get};

use comp_core::ShapeNo;
use shape_refs::ShapeOrder;
use shx_term::{Id, Memory};
use std::alloc::Global;

/// The number of a shape.
pub(crate) fn number_of(order: &ShapeOrder, node: Id) -> ShapeNo
    requires { Contains order.now.nodes.keys node }
    ensures { slice_get order.now.nodes.keys result ≡ Some node }
{
    match order.number(node) {
        Some(number) => number,
        None => unreachable!(),
    }
}

/// The numbers of some shapes, in the same order.
pub(crate) fn numbers_of(
    alloc: Global,
    order: &ShapeOrder,
    nodes: &[Id],
) -> Result<Vec<ShapeNo>, Memory>
    requires { All (Contains order.now.nodes.keys) nodes.now }
    ensures { IfOk result (λ numbers.
        map (slice_get order.now.nodes.keys) numbers.items ≡ map Some nodes.now) }
{
    let mut numbers = Vec::with_capacity(alloc, nodes.len())?;
    for node in nodes {
        numbers.push(number_of(order, *node))?;
    }
    Ok(numbers)
}
