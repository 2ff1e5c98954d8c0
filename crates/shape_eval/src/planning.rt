//! How a plan is made, and what it holds.
ghost use Rattle.std.specs.Prelude.{◌≡◌, ◌++◌, ◌<◌, ◌^◌, nat_eq, filter, flat_map, length, position, Some};
ghost use Rattle.std.specs.Prelude.{slice_get, All, IfOk, OnOk};
ghost use Rattle.std.specs.List.{IsDistinct};
ghost use Rattle.shape_eval.specs.Plan.{IsNumbered, IsPlan, RefersLower, if_any, is_targeted, nodes_of};
ghost use Rattle.shape_eval.specs.Plan.{number_of, planned};
ghost use Rattle.shape_eval.specs.Planned.{plan_of};

use crate::{Plan, PlanShape};
use comp_core::ShapeNo;
use indexmap::IndexSet;
use shx_term::{Id, Memory, Pool};
use std::alloc::Global;

impl Plan {
    /// The plan of these shapes, whose numbers are their places. The numbers of terms in them are of this
    /// pool. It sorts the nodes of the targeted shapes, and takes time linear in the shapes beside that.
    pub fn from_shapes(alloc: Global, shapes: Vec<PlanShape>, pool: &Pool) -> Result<Plan, Memory>
        requires { IsPlan pool.now.terms shapes.items }
        ensures { IfOk result (λ plan. plan_of plan ≡ planned pool.now.terms shapes.items) }
    {
        let places = places_of(alloc, &shapes)?;
        let nodes = pool.in_order(targeted_nodes(alloc, &shapes)?);
        let targeted = find_numbers(alloc, &places, &nodes)?;
        Ok(Plan {
            shapes,
            places,
            targeted,
        })
    }

    /// The shape of a number. It takes no memory.
    pub fn shape(&self, n: ShapeNo) -> &PlanShape
        requires { n < length (plan_of self.now).shapes }
        ensures { slice_get (plan_of self.now).shapes n ≡ Some result.now }
    {
        &self.shapes[n as usize]
    }

    /// The number of the shape of a node, if there is one. It takes one look-up by hash, and no memory.
    pub fn number(&self, node: Id) -> Option<ShapeNo>
        ensures { result ≡ number_of (plan_of self.now).shapes node }
    {
        place(&self.places, node)
    }

    /// How many shapes there are. It takes no memory.
    pub fn len(&self) -> u32
        ensures { result ≡ length (plan_of self.now).shapes }
    {
        self.shapes.len() as u32
    }

    /// The numbers of the active shapes that have a target, in the order of the terms of their nodes. It
    /// takes no memory.
    pub fn targeted(&self) -> &[ShapeNo]
        ensures targeted { result.now ≡ (plan_of self.now).targeted }
        ensures within { All (λ n. n < length (plan_of self.now).shapes) result.now }
    {
        &self.targeted
    }

    /// A law: its shapes are of distinct nodes, and each names lower ones alone. It does nothing.
    pub fn shapes_are_numbered(&self)
        ensures { IsNumbered (plan_of self.now).shapes }
    {
        // The places are distinct.
        let _ = self.places.len();
    }

    // All shapes. Each names lower ones alone.
    pub(crate) fn shapes(&self) -> &[PlanShape]
        ensures shapes { result.now ≡ (plan_of self.now).shapes }
        ensures refers { RefersLower result.now }
    {
        &self.shapes
    }
}

// Whether a validation begins at the shape.
fn is_targeted(shape: &PlanShape) -> bool
    ensures { result ≡ is_targeted shape.now }
{
    !shape.deactivated && !shape.targets.is_empty()
}

// The nodes of the shapes at which a validation begins.
fn targeted_nodes(alloc: Global, shapes: &[PlanShape]) -> Result<Vec<Id>, Memory>
    ensures { IfOk result (λ nodes. nodes.items ≡ nodes_of (filter is_targeted shapes.now)) }
{
    let mut nodes = Vec::new(alloc);
    for shape in shapes {
        if is_targeted(shape) {
            nodes.push(shape.node)?;
        }
    }
    Ok(nodes)
}

// The place of a node, if it has one.
fn place(places: &IndexSet<Id>, node: Id) -> Option<ShapeNo>
    requires { length places.now.keys < 2 ^ 32 }
    ensures { result ≡ position (nat_eq node) places.now.keys }
{
    match places.get_index_of(&node) {
        Some(at) => Some(at as ShapeNo),
        None => None,
    }
}

// The places of these nodes, as far as they have one, in the same order.
fn find_numbers(alloc: Global, places: &IndexSet<Id>, nodes: &[Id]) -> Result<Vec<ShapeNo>, Memory>
    requires { length places.now.keys < 2 ^ 32 }
    ensures { IfOk result (λ found. found.items
        ≡ flat_map (λ node. if_any (position (nat_eq node) places.now.keys)) nodes.now) }
{
    let mut found = Vec::new(alloc);
    for node in nodes {
        add_number(places, *node, &mut found)?;
    }
    Ok(found)
}

// Appends the place of a node, if it has one.
fn add_number(places: &IndexSet<Id>, node: Id, found: &mut Vec<ShapeNo>) -> Result<(), Memory>
    requires { length places.now.keys < 2 ^ 32 }
    ensures { OnOk result (found.new.items
        ≡ found.old.items ++ if_any (position (nat_eq node) places.now.keys)) }
{
    if let Some(at) = place(places, node) {
        found.push(at)?;
    }
    Ok(())
}

// The nodes of the shapes, each at its place.
fn places_of(alloc: Global, shapes: &[PlanShape]) -> Result<IndexSet<Id>, Memory>
    requires { IsDistinct nat_eq (nodes_of shapes.now) }
    ensures { IfOk result (λ places. places.keys ≡ nodes_of shapes.now) }
{
    let mut places = IndexSet::new(alloc);
    for shape in shapes {
        places.insert(shape.node)?;
    }
    Ok(places)
}
