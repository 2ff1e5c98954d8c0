ghost use Rattle.std.specs.Prelude.{◌≡◌, ◌↔◌, [], nat_eq, Contains, IsTrue, OnOk};
ghost use Rattle.std.specs.List.{IsDistinct};
ghost use Rattle.shape_order.specs.inner.Listed.{with_shape};

use shx_term::Memory;
use std::alloc::Global;
use std::marker::Model;

/// Shapes, each once, in the order in which they were added.
#[derive(Drop)]
pub(crate) struct Listed {
    shapes: Vec<u32>,
    held: Vec<bool>,
}

impl Model for Listed {
    ghost use Rattle.std.specs.Prelude.{ℕ, List};
    ghost use Rattle.shape_order.specs.inner.Listed.{IsMarked};

    ghost Value = { List ℕ };

    ghost view = { λ a. a.shapes.items };

    ghost invariant = { λ a. IsMarked a.held.items a.shapes.items };
}

impl Listed {
    /// No shapes. It takes no memory.
    pub(crate) fn new(alloc: Global) -> Listed
        ensures { result ≡ [] }
    {
        Listed {
            shapes: Vec::new(alloc),
            held: Vec::new(alloc),
        }
    }

    /// Whether the shape is there.
    pub(crate) fn holds(&self, shape: u32) -> bool
        ensures held { IsTrue result ↔ Contains self.now shape }
        ensures distinct { IsDistinct nat_eq self.now }
    {
        let at = shape as usize;
        at < self.held.len() && self.held[at]
    }

    /// Adds a shape behind the others, if it is not there.
    pub(crate) fn add(&mut self, shape: u32) -> Result<(), Memory>
        ensures added { OnOk result (self.new ≡ with_shape self.old shape) }
        ensures distinct { OnOk result (IsDistinct nat_eq self.new) }
    {
        let at = shape as usize;
        if at >= self.held.len() {
            self.held.resize(at + 1, false)?;
        }
        if !self.held[at] {
            self.shapes.push(shape)?;
            self.held[at] = true;
        }
        Ok(())
    }

    /// The shapes. They are distinct.
    pub(crate) fn into_shapes(self) -> Vec<u32>
        ensures value { result.items ≡ self }
        ensures distinct { IsDistinct nat_eq self }
    {
        self.shapes
    }
}
