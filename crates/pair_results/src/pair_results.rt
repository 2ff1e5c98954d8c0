ghost use Rattle.std.specs.Prelude.{◌≡◌, ◌<◌, [], All, length, flat_map, IfOk};
ghost use Rattle.pair_results.specs.PairResults.{all_rows, rows_at, shape_rows, HasNothing, AreInTermOrder};

use crate::nodes::{Nodes, rows_in};
use crate::rows::Rows;
use comp_core::{ResultRow, RowList, ShapeNo};
use shx_term::{Memory, Term};
use std::alloc::Global;
use std::collections::BTreeMap;
use std::marker::Model;

/// A shape and the term of a node.
#[derive(Debug, PartialEq, Eq, PartialOrd, Ord, Drop)]
pub(crate) struct Place {
    pub(crate) shape: ShapeNo,
    pub(crate) node: Term,
}

/// The results of shapes at nodes. Changes are staged, which takes all the memory that they need, and then
/// made at once.
pub struct PairResults {
    /// Of each shape, by its number, its nodes. Whatever is staged has its place here.
    pub(crate) shapes: Vec<Nodes>,
    pub(crate) staged: BTreeMap<Place, RowList>,
    /// How many results are kept.
    pub(crate) count: u64,
    /// At least as many as are staged.
    pub(crate) coming: u64,
}

// A derived drop is no call: each place where one ends would split into one path for each of its parts.
impl Drop for PairResults {
    fn drop(self) {
        let PairResults {
            shapes: _shapes,
            staged: _staged,
            count: _count,
            coming: _coming,
        } = self;
    }
}

impl Model for PairResults {
    ghost use Rattle.std.specs.Prelude.{map};
    ghost use Rattle.pair_results.specs.PairResults.{Kept};
    ghost use Rattle.pair_results.specs.inner.Invariant.{IsCounted};

    ghost Value = { Kept };

    ghost view = { λ a. record {
      shapes = map (λ nodes. nodes.entries) a.shapes.items;
      staged = a.staged.entries;
    } };

    ghost invariant = { λ a. IsCounted (record {
      shapes = map (λ nodes. nodes.entries) a.shapes.items;
      staged = a.staged.entries;
    }) a.count a.coming };
}

impl PairResults {
    /// No results of so many shapes.
    pub fn new(alloc: Global, shapes: u32) -> Result<PairResults, Memory>
        ensures shapes { IfOk result (λ made. length made.shapes ≡ shapes) }
        ensures nothing { IfOk result HasNothing }
        ensures staged { IfOk result (λ made. made.staged ≡ []) }
    {
        let mut all = Vec::with_capacity(alloc, shapes as usize)?;
        for _ in 0..shapes {
            all.push(BTreeMap::new(alloc))?;
        }
        Ok(PairResults {
            shapes: all,
            staged: BTreeMap::new(alloc),
            count: 0,
            coming: 0,
        })
    }

    /// The results of a shape at a node, which is given by its term. It takes no memory.
    pub fn rows_of(&self, shape: ShapeNo, node: &Term) -> &[ResultRow]
        requires { shape < length self.now.shapes }
        ensures { result.now ≡ rows_at self.now shape node.now }
    {
        rows_in(&self.shapes[shape as usize], node)
    }

    /// How many results there are. It takes no memory, and constant time.
    pub fn len(&self) -> u64
        ensures count { result ≡ length (all_rows self.now) }
        ensures ordered { AreInTermOrder self.now }
    {
        self.count
    }

    /// The results of some shapes, shape by shape, and of each shape by the terms of the nodes. It takes no
    /// memory, and neither does a step.
    pub fn rows<'a>(&'a self, shapes: &'a [ShapeNo]) -> Rows<'a>
        requires { All (λ shape. shape < length self.now.shapes) shapes.now }
        ensures rows { result ≡ flat_map (shape_rows self.now) shapes.now }
        ensures ordered { AreInTermOrder self.now }
    {
        Rows::new(&self.shapes, shapes)
    }
}
