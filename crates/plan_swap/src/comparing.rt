ghost use Rattle.std.specs.Prelude.{◌≡◌, ◌<◌, ℕ, length, IfOk, MatchOption};
ghost use Rattle.std.specs.List.{list_all};
ghost use Rattle.shape_eval.specs.Constraint.{shapes_named};
ghost use Rattle.shape_eval.specs.Plan.{IsNumbered};
ghost use Rattle.shape_eval.specs.Planned.{plan_of};
ghost use Rattle.plan_swap.specs.Alike.{AreAlike, AreAlikes};
ghost use Rattle.plan_swap.specs.inner.Stated.{AreFoundBelow, are_known, is_found};

use crate::Alikes;
use crate::same_shape::is_same_shape;
use crate::stated::{Stated, stated_by};
use comp_core::ShapeNo;
use shape_eval::{Constraint, Plan};
use shx_term::Memory;
use std::alloc::Global;

/// For each shape of the new plan the shape of the old one that is declared alike, where the numbers of terms
/// in both are of one pool. It takes time linear in both plans.
pub fn alike(alloc: Global, old: &Plan, new: &Plan) -> Result<Alikes, Memory>
    ensures { IfOk result (AreAlikes (plan_of old.now).shapes (plan_of new.now).shapes) }
{
    old.shapes_are_numbered();
    new.shapes_are_numbered();
    let mut found = Vec::new(alloc);
    for n in 0..new.len() {
        found.push(counterpart(old, new, n, &found))?;
    }
    Ok(Alikes { found })
}

// The old shape that is alike with a new one, where it is known which are with those that this one names.
fn counterpart(old: &Plan, new: &Plan, n: ShapeNo, found: &[Option<ShapeNo>]) -> Option<ShapeNo>
    requires old { IsNumbered (plan_of old.now).shapes }
    requires new { IsNumbered (plan_of new.now).shapes }
    requires within { n < length (plan_of new.now).shapes }
    requires below { AreFoundBelow (plan_of old.now).shapes (plan_of new.now).shapes n found.now }
    ensures { MatchOption result
        ((m : ℕ) → AreAlike (plan_of old.now).shapes (plan_of new.now).shapes m n → ⊥)
        (λ m. AreAlike (plan_of old.now).shapes (plan_of new.now).shapes m n) }
{
    let shape = new.shape(n);
    let m = old.number(shape.node)?;
    if is_same_shape(old, old.shape(m), new, shape) && are_known(&shape.constraints, found) {
        Some(m)
    } else {
        None
    }
}

// Whether each shape that the constraints name is alike with an old one.
fn are_known(constraints: &[Constraint], found: &[Option<ShapeNo>]) -> bool
    ensures { result ≡ are_known constraints.now found.now }
{
    for c in constraints {
        if !is_known(c, found) {
            return false;
        }
    }
    true
}

fn is_known(c: &Constraint, found: &[Option<ShapeNo>]) -> bool
    ensures { result ≡ list_all (is_found found.now) (shapes_named c.now) }
{
    match stated_by(c) {
        Stated::Names(first, then) => are_found(first, found) && are_found(then, found),
        _ => true,
    }
}

fn are_found(shapes: &[ShapeNo], found: &[Option<ShapeNo>]) -> bool
    ensures { result ≡ list_all (is_found found.now) shapes.now }
{
    shapes.iter().all(|n| is_found(*n, found))
}

fn is_found(n: ShapeNo, found: &[Option<ShapeNo>]) -> bool
    ensures { result ≡ is_found found.now n }
{
    matches!(found.get(n as usize), Some(Some(_)))
}
