//! The order of declared shapes, or what stands in its way.
ghost use Rattle.std.specs.Prelude.{◌≡◌, ◌<◌, nat_eq, length, map, All, IfErr, IfOk};
ghost use Rattle.std.specs.List.{IsDistinct};
ghost use Rattle.shape_decl.specs.Declarations.{told_decl};
ghost use Rattle.shape_refs.specs.Order.{IsShapeOrder, NameDeclared, StandInOrder};
ghost use Rattle.shape_refs.specs.Outcome.{AreInReach, Tells};
ghost use Rattle.shape_refs.specs.References.{siblings_of};
ghost use Rattle.shape_refs.specs.inner.Places.{nodes_at};

use crate::declared::Declared;
use crate::fault::ReferenceFault;
use crate::numbered::ShapeOrder;
use crate::references::find_references;
use crate::siblings::find_siblings;
use indexmap::IndexSet;
use shape_order::{OrderFault, order};
use shx_term::{Id, Memory};
use std::alloc::Global;

/// Puts declared shapes in an order in which each stands behind those that it refers to: by its parameters,
/// and as a sibling.
///
/// It takes time in proportion to what is declared, but for sorting siblings. Of n property shapes of one
/// parent that have siblings each has up to n of them, so that it takes and gives the square of n. No step is
/// a recursion over shapes.
///
/// # Errors
///
/// What stands in the way, as [`ReferenceFault`] says; a cycle goes before a shape that is too deep.
pub fn order_shapes(
    alloc: Global,
    declared: &Declared<'_>,
    depth_limit: u32,
) -> Result<ShapeOrder, ReferenceFault>
    requires ascending { StandInOrder declared.now.pool.now.terms (map told_decl declared.now.decls.now) }
    requires named { NameDeclared (map told_decl declared.now.decls.now) }
    ensures order { IfOk result (λ order. IsShapeOrder declared.now.pool.now.terms
        (map told_decl declared.now.decls.now) order.nodes.keys) }
    ensures siblings { IfOk result (λ order. map (λ row. row.items) order.siblings.items ≡ map
        (siblings_of declared.now.pool.now.terms (map told_decl declared.now.decls.now))
        (map told_decl declared.now.decls.now)) }
    ensures reach { IfOk result (λ order. AreInReach depth_limit declared.now.pool.now.terms
        (map told_decl declared.now.decls.now)) }
    ensures fault { IfErr result (Tells depth_limit declared.now.pool.now.terms
        (map told_decl declared.now.decls.now)) }
{
    let siblings = find_siblings(alloc, declared)?;
    let refs = find_references(alloc, declared, &siblings)?;
    match order(alloc, &refs, depth_limit) {
        Ok(numbering) => Ok(ShapeOrder {
            nodes: nodes_in(alloc, declared, &numbering.order)?,
            siblings,
        }),
        Err(OrderFault::Recursive { cycle }) => Err(ReferenceFault::Recursive {
            cycle: nodes_of(alloc, declared, &cycle)?,
        }),
        Err(OrderFault::TooDeep { shape }) => Err(ReferenceFault::TooDeep {
            shape: declared.decls[shape as usize].node,
        }),
        Err(OrderFault::Memory) => Err(ReferenceFault::Memory),
    }
}

// The nodes of the declarations at some places, in the same order.
fn nodes_of(alloc: Global, declared: &Declared<'_>, places: &[u32]) -> Result<Vec<Id>, Memory>
    requires { All (λ at. at < length declared.now.decls.now) places.now }
    ensures { IfOk result (λ nodes. nodes.items
        ≡ nodes_at (map told_decl declared.now.decls.now) places.now) }
{
    let mut nodes = Vec::with_capacity(alloc, places.len())?;
    for at in places {
        nodes.push(declared.decls[*at as usize].node)?;
    }
    Ok(nodes)
}

// The same as a set.
fn nodes_in(alloc: Global, declared: &Declared<'_>, places: &[u32]) -> Result<IndexSet<Id>, Memory>
    requires within { All (λ at. at < length declared.now.decls.now) places.now }
    requires distinct { IsDistinct nat_eq (nodes_at (map told_decl declared.now.decls.now) places.now) }
    ensures { IfOk result (λ nodes. nodes.keys
        ≡ nodes_at (map told_decl declared.now.decls.now) places.now) }
{
    let mut nodes = IndexSet::new(alloc);
    for at in places {
        nodes.insert(declared.decls[*at as usize].node)?;
    }
    Ok(nodes)
}
