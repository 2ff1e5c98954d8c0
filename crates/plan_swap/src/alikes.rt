ghost use Rattle.std.specs.Prelude.{◌≡◌, ◌<◌, length, Some, slice_get};

use comp_core::ShapeNo;
use std::marker::Model;

/// For each shape of a new plan, by number, the old shape that is alike, where one is. Contracts see a list.
#[derive(Drop)]
pub struct Alikes {
    pub(crate) found: Vec<Option<ShapeNo>>,
}

impl Model for Alikes {
    ghost use Rattle.std.specs.Prelude.{ℕ, List, Option};

    ghost Value = { List (Option ℕ) };

    ghost view = { λ a. a.found.items };
}

impl Alikes {
    /// The number of the old shape that is alike with the new one of this number. It takes no memory.
    pub fn old_number(&self, n: ShapeNo) -> Option<ShapeNo>
        requires { n < length self.now }
        ensures { slice_get self.now n ≡ Some result }
    {
        self.found[n as usize]
    }
}
