//! Value nodes that conform to a shape and to none of its siblings (SHACL, section 4.7.3).
ghost use Rattle.std.specs.Prelude.{◌≡◌, List, ◌∷◌, ◌++◌, All, flat_map, IfOk, OnOk};
ghost use Rattle.graph_view.specs.declared.key.Key.{Key};
ghost use Rattle.comp_core.specs.declared.pair.Pair.{Pair};
ghost use Rattle.comp_core.specs.Asking.{asked_keys, pairs_asked, pairs_at};
ghost use Rattle.qualified_shapes.specs.Qualified.{qualified_count, qualifies};

use comp_core::{Conform, Pair, ShapeNo, ask_at, conforming};
use shx_term::{Id, Memory};

/// Appends each value node at the shape, and then at its siblings, by value node.
pub(crate) fn ask_qualified(
    shape: ShapeNo,
    siblings: &[ShapeNo],
    values: &[Id],
    out: &mut Vec<Pair>,
) -> Result<(), Memory>
    ensures { OnOk result (out.new.items
        ≡ out.old.items ++ pairs_asked (shape ∷ siblings.now) values.now) }
{
    for v in values {
        out.push(Pair { shape, node: *v })?;
        ask_at(siblings, *v, out)?;
    }
    Ok(())
}

// Whether the node conforms to the shape and to none of the siblings. It asks about all of them.
fn qualifies<C: Conform>(
    conform: &C,
    shape: ShapeNo,
    siblings: &[ShapeNo],
    node: Id,
    reads: &mut C::Noted,
) -> Result<bool, Memory>
    requires { All (C.holds conform.now) (pairs_at (shape ∷ siblings.now) node) }
    ensures answer { IfOk result (λ is. is ≡ qualifies (C.rows_of conform.now) shape siblings.now node) }
    ensures reads { (r : Pair → List Key) → C.tells conform.now r
        → OnOk result (C.Noted.notes reads.old reads.new
        (flat_map r (pairs_at (shape ∷ siblings.now) node))) }
{
    let pair = Pair { shape, node };
    let is_own = conform.conforms(&pair, reads)?;
    let others = conforming(conform, siblings, node, reads)?;
    Ok(is_own && others == 0)
}

/// How many value nodes conform to the shape and to none of its siblings. It asks about every shape at every
/// value node.
pub(crate) fn qualified_count<C: Conform>(
    conform: &C,
    shape: ShapeNo,
    siblings: &[ShapeNo],
    values: &[Id],
    reads: &mut C::Noted,
) -> Result<usize, Memory>
    requires { All (C.holds conform.now) (pairs_asked (shape ∷ siblings.now) values.now) }
    ensures count { IfOk result (λ count.
        count ≡ qualified_count (C.rows_of conform.now) shape siblings.now values.now) }
    ensures reads { (r : Pair → List Key) → C.tells conform.now r
        → OnOk result (C.Noted.notes reads.old reads.new
        (asked_keys r (shape ∷ siblings.now) values.now)) }
{
    let mut count = 0;
    for v in values {
        if qualifies(conform, shape, siblings, *v, reads)? {
            count += 1;
        }
    }
    Ok(count)
}
