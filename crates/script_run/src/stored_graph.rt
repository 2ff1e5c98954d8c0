//! The form in which a run stores a graph. Nothing else in this crate names it.
pub use triple_store::Store as StoredGraph;
