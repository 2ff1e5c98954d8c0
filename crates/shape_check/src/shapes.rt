//! The shapes that have a path.
ghost use Rattle.std.specs.Prelude.{◌≡◌, ℕ, not, find, map, IfOk};
ghost use Rattle.std.specs.BTreeSet.{contains};
ghost use Rattle.std.specs.Ordering.{nat_cmp};
ghost use Rattle.shape_decl.specs.Declarations.{told_decl};
ghost use Rattle.shape_check.specs.Faults.{has_path};

use shape_decl::ShapeDecl;
use shx_term::{Id, Memory};
use std::alloc::Global;
use std::collections::BTreeSet;

/// Declarations, and the numbers of those that have a path.
#[derive(Drop)]
pub(crate) struct PropertyShapes<'a> {
    pub(crate) decls: &'a [ShapeDecl],
    nodes: BTreeSet<Id>,
    ghost have_paths: { (n : ℕ) → contains nat_cmp nodes n ≡ has_path (map told_decl decls.now) n },
}

impl<'a> PropertyShapes<'a> {
    /// The property shapes among declarations.
    pub(crate) fn of(alloc: Global, decls: &'a [ShapeDecl]) -> Result<PropertyShapes<'a>, Memory>
        ensures { IfOk result (λ shapes. shapes.decls.now ≡ decls.now) }
    {
        let mut nodes = BTreeSet::new(alloc);
        for decl in decls {
            if decl.path.is_some() {
                nodes.insert(decl.node)?;
            }
        }
        Ok(PropertyShapes { decls, nodes })
    }

    /// The first of some nodes that is one of them. For each node it takes logarithmic time.
    pub(crate) fn first_in(&self, nodes: &[Id]) -> Option<Id>
        ensures { result ≡ find (has_path (map told_decl self.now.decls.now)) nodes.now }
    {
        nodes.iter().copied().find(|node| self.contains(*node))
    }

    /// The first of some nodes that is none of them.
    pub(crate) fn first_not_in(&self, nodes: &[Id]) -> Option<Id>
        ensures { result ≡ find (λ n. not (has_path (map told_decl self.now.decls.now) n)) nodes.now }
    {
        nodes.iter().copied().find(|node| !self.contains(*node))
    }

    fn contains(&self, node: Id) -> bool
        ensures { result ≡ has_path (map told_decl self.now.decls.now) node }
    {
        self.nodes.contains(&node)
    }
}
