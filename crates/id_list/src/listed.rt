ghost use Rattle.std.specs.Prelude.{◌≡◌, ◌==◌, ℕ};
ghost use Rattle.std.specs.List.{list_any};
ghost use Rattle.std.specs.Option.{ForSome};

use indexmap::IndexSet;
use shx_term::Id;

/// Numbers in order, and, where they are many, the same by hash.
#[derive(Drop)]
pub(crate) struct Listed {
    pub(crate) ids: Vec<Id>,
    pub(crate) set: Option<IndexSet<Id>>,
    ghost same: { ForSome set (λ set. (id : ℕ)
        → list_any (λ other. other == id) set.keys ≡ list_any (λ other. other == id) ids.items) },
}
