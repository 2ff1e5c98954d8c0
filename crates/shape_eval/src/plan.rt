ghost use Rattle.std.specs.Prelude.{◌≡◌, ◌<◌, ◌^◌, All, length};
ghost use Rattle.shape_eval.specs.Plan.{RefersLower, nodes_of};

use crate::PlanShape;
use comp_core::ShapeNo;
use indexmap::IndexSet;
use shx_term::Id;

/// Shapes by number, each of which names lower numbers alone, so that none refers to itself, in however many
/// steps.
pub struct Plan {
    pub(crate) shapes: Vec<PlanShape>,
    // The node of each shape, at the place that is its number.
    pub(crate) places: IndexSet<Id>,
    pub(crate) targeted: Vec<ShapeNo>,
    ghost few: { length shapes.items < 2 ^ 32 },
    ghost refers: { RefersLower shapes.items },
    ghost placed: { places.keys ≡ nodes_of shapes.items },
    ghost within: { All (λ n. n < length shapes.items) targeted.items },
}

// A derived drop is no call: each place where a plan ends would split into one path for each of its parts.
impl Drop for Plan {
    fn drop(self) {
        let Plan {
            shapes: _shapes,
            places: _places,
            targeted: _targeted,
        } = self;
    }
}
