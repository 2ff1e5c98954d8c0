//! What rows ask of graphs.
use super::due::Due;
use super::graphs::graph;
use super::{declarations, faults, lists, paths, plans};
use graph_view::ListGraph;
use row_tools::{RowFault, cut};
use std::alloc::Global;

fn is_answered(
    alloc: Global,
    graph: &mut ListGraph,
    asked: &str,
    due: Due,
) -> Result<bool, RowFault> {
    let (what, of) = asked.split_once(' ').unwrap_or((asked, ""));
    match what {
        "list" => lists::is_list(alloc, graph, of, due),
        "path" => paths::is_path(alloc, graph, of, due),
        "shapes" => declarations::are_found(alloc, graph, due),
        "declared" => declarations::are_declared(alloc, graph, due),
        "sparql" => declarations::is_count(alloc, graph, due),
        "fault" => faults::is_fault(alloc, graph, of, due),
        "plan" => plans::is_plan(alloc, graph, due),
        _ => Err(RowFault::Unread),
    }
}

/// Whether a graph gives what is said of it, in a row that is `ASKED | GRAPH = DUE`, where lines may be due.
pub(super) fn is_met(alloc: Global, row: &str) -> Result<bool, RowFault> {
    let (asked, rest) = cut(row, " | ")?;
    let (text, due) = cut(rest, " =")?;
    is_answered(alloc, &mut graph(alloc, text)?, asked, Due::new(due))
}
