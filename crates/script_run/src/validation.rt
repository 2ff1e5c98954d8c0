use crate::stored_graph::StoredGraph;
use shape_eval::Plan;
use text_output::Format;
use ttl_read::Document;

/// The plan of the shapes, and the data graph that it is asked of.
#[derive(Drop)]
pub struct Validation {
    pub graph: StoredGraph,
    /// The data text without its triples: the base, the prefixes and the blank nodes at its end.
    pub document: Document,
    pub plan: Plan,
    /// How answers are written.
    pub format: Format,
    /// How many triples of the shapes text were passed over.
    pub passed_over: u64,
}
