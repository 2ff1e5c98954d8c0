use indexmap::IndexSet;
use shx_term::Id;

/// How numbers are held that are looked up: a few as they stand, more by hash.
#[derive(Drop)]
pub(crate) enum Held<'a> {
    Few(&'a [Id]),
    Many(IndexSet<Id>),
}
