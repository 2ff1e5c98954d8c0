//! Asking about nodes at other shapes.
ghost use Rattle.std.specs.Prelude.{◌≡◌, ◌++◌, All, List, flat_map, IfOk, OnOk};
ghost use Rattle.graph_view.specs.declared.key.Key.{Key};
ghost use Rattle.comp_core.specs.declared.pair.Pair.{Pair};
ghost use Rattle.comp_core.specs.Asking.{pairs_asked, pairs_at, conforming_of};

use crate::{Conform, Pair, ShapeNo};
use shx_term::{Id, Memory};

/// Appends each node at each of the shapes, by node.
pub fn ask_shapes(shapes: &[ShapeNo], nodes: &[Id], out: &mut Vec<Pair>) -> Result<(), Memory>
    ensures { OnOk result (out.new.items ≡ out.old.items ++ pairs_asked shapes.now nodes.now) }
{
    for node in nodes {
        ask_at(shapes, *node, out)?;
    }
    Ok(())
}

/// Appends a node at each of the shapes.
pub fn ask_at(shapes: &[ShapeNo], node: Id, out: &mut Vec<Pair>) -> Result<(), Memory>
    ensures { OnOk result (out.new.items ≡ out.old.items ++ pairs_at shapes.now node) }
{
    for shape in shapes {
        out.push(Pair {
            shape: *shape,
            node,
        })?;
    }
    Ok(())
}

/// To how many of the shapes a node conforms. It asks about every one of them, whatever the others answer, so
/// that what it reads does not depend on the answers.
pub fn conforming<C: Conform>(
    conform: &C,
    shapes: &[ShapeNo],
    node: Id,
    reads: &mut C::Noted,
) -> Result<usize, Memory>
    requires { All (C.holds conform.now) (pairs_at shapes.now node) }
    ensures count { IfOk result (λ count. count ≡ conforming_of (C.rows_of conform.now) shapes.now node) }
    ensures reads { (r : Pair → List Key) → C.tells conform.now r
        → OnOk result (C.Noted.notes reads.old reads.new
        (flat_map r (pairs_at shapes.now node))) }
{
    let mut count = 0;
    for shape in shapes {
        let pair = Pair {
            shape: *shape,
            node,
        };
        if conform.conforms(&pair, reads)? {
            count += 1;
        }
    }
    Ok(count)
}
