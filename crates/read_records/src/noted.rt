use graph_view::Reads;

/// What is kept for a reader: a value, and the keys that were read for it.
#[derive(Drop)]
pub(crate) struct Noted<T: Drop> {
    pub(crate) value: T,
    pub(crate) reads: Reads,
}
