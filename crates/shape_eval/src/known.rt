//! What evaluations of a plan find once.
ghost use Rattle.graph_view.specs.Graph.{Graph};
ghost use Rattle.shape_eval.specs.Known.{IsKnownOf};

use crate::matchers::Matchers;
use path_eval::Superclasses;
use std::alloc::Global;

/// What evaluations of a plan's shapes over one graph find at one pair and know at the next.
pub struct Known<'p> {
    pub(crate) superclasses: Superclasses,
    pub(crate) matchers: Matchers<'p>,
}

// A derived drop is no call: each place where this ends would split into one path for each of its parts.
impl<'p> Drop for Known<'p> {
    fn drop(self) {
        let Known {
            superclasses: _superclasses,
            matchers: _matchers,
        } = self;
    }
}

impl<'p> Known<'p> {
    /// Nothing is known. It takes no memory.
    pub fn new(alloc: Global) -> Known<'p>
        ensures { (g : Graph) → IsKnownOf result g }
    {
        Known {
            superclasses: Superclasses::new(alloc),
            matchers: Matchers::new(alloc),
        }
    }
}
