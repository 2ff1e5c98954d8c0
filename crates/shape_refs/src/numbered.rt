//! `ShapeOrder`: declared shapes in an order in which each stands behind those that it refers to.
ghost use Rattle.std.specs.Prelude.{◌≡◌, ◌<◌, ◌^◌, nat_eq, length, position, Some, slice_get};

use indexmap::IndexSet;
use shx_term::Id;

/// Declared shapes, numbered so that each refers to lower numbers alone; and the siblings of each.
pub struct ShapeOrder {
    /// The nodes of the shapes, by number.
    pub nodes: IndexSet<Id>,
    /// The siblings of each shape (SHACL, section 4.7.3), by the place of its declaration.
    pub siblings: Vec<Vec<Id>>,
    ghost few: { length nodes.keys < 2 ^ 32 },
}

// A derived drop is no call: each place where one ends would split into one path for each of its parts.
impl Drop for ShapeOrder {
    fn drop(self) {
        let ShapeOrder {
            nodes: _nodes,
            siblings: _siblings,
        } = self;
    }
}

impl ShapeOrder {
    /// How many shapes there are.
    pub fn len(&self) -> u32
        ensures { result ≡ length self.now.nodes.keys }
    {
        self.nodes.len() as u32
    }

    /// The node of a number.
    pub fn node(&self, number: u32) -> Id
        requires { number < length self.now.nodes.keys }
        ensures { slice_get self.now.nodes.keys number ≡ Some result }
    {
        self.nodes.as_slice()[number as usize]
    }

    /// The number of a node, if it is a shape. It takes one look-up by hash.
    pub fn number(&self, node: Id) -> Option<u32>
        ensures { result ≡ position (nat_eq node) self.now.nodes.keys }
    {
        let at = self.nodes.get_index_of(&node)?;
        Some(at as u32)
    }
}
