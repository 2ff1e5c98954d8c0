//! A change of a graph.
use super::letters::graph_of;
use graph_view::ListGraph;
use row_tools::RowFault;
use std::alloc::Global;

/// What is removed from a graph, and what is added to it.
#[derive(Drop)]
pub(super) struct Change {
    pub(super) removed: ListGraph,
    pub(super) added: ListGraph,
}

impl Change {
    /// The change by the words of its triples.
    pub(super) fn of(alloc: Global, removed: &str, added: &str) -> Result<Change, RowFault> {
        let removed = graph_of(alloc, 75, 100, removed)?;
        let added = graph_of(alloc, 75, 100, added)?;
        Ok(Change { removed, added })
    }
}
