use super::cells::{are_nodes, graph, is_said, keys, node};
use super::paths::path;
use super::rows::QUESTIONS;
use due_view::DueView;
use graph_view::{GraphView, ListGraph, Reads};
use path_eval::{
    LaidPath, Path, a_type_tells_of_its_node_alone, classes, edits_beside_a_path,
    equal_paths_have_one_route, instances, instances_are_told, instances_depend_on_their_reads,
    instances_unsorted, is_instance, paths_depend_on_their_reads, paths_lead_to_what_they_relate,
    values,
};
use row_tools::{RowFault, all_met, cut, in_four};
use shx_term::Id;
use std::alloc::Global;
use std::test::Fail;

// A copy of a path, laid and shared, if it is equal.
fn shared(alloc: Global, path: &Path) -> Result<LaidPath, RowFault> {
    let laid = LaidPath::new(alloc, path.copy(alloc)?)?;
    if laid.path() != path {
        return Err(RowFault::Unread);
    }
    Ok(laid.copy()?)
}

// Where a path leads, if it leads there laid and shared too.
fn path_values(
    alloc: Global,
    view: &DueView<ListGraph>,
    path: &Path,
    start: Id,
    reads: &mut Reads,
) -> Result<Vec<Id>, RowFault> {
    let found = shared(alloc, path)?.values(alloc, view, start, reads)?;
    if values(alloc, view, path, start, reads)? != found {
        return Err(RowFault::Unread);
    }
    Ok(found)
}

// The instances of a class, if they are found in any order too.
fn instances_of(
    alloc: Global,
    view: &DueView<ListGraph>,
    class: Id,
    reads: &mut Reads,
) -> Result<Vec<Id>, RowFault> {
    let found = instances(alloc, view, class, reads)?;
    let any = instances_unsorted(alloc, view, class, reads)?;
    if view.pool().in_order(any) != found {
        return Err(RowFault::Unread);
    }
    Ok(found)
}

// The classes of a node, the instances of a class, or where a path leads.
fn found(
    alloc: Global,
    view: &DueView<ListGraph>,
    asked: &str,
    of: Id,
    reads: &mut Reads,
) -> Result<Vec<Id>, RowFault> {
    match asked {
        "classes" => Ok(classes(alloc, view, of, reads)?),
        "instances" => instances_of(alloc, view, of, reads),
        marks => path_values(alloc, view, &path(alloc, marks)?, of, reads),
    }
}

fn is_of_class(
    alloc: Global,
    view: &DueView<ListGraph>,
    words: &str,
    reads: &mut Reads,
) -> Result<bool, RowFault> {
    let (tested, class) = cut(words, " ")?;
    Ok(is_instance(alloc, view, node(tested)?, node(class)?, reads)?)
}

fn is_same(alloc: Global, first: &Path, second: &str) -> Result<bool, RowFault> {
    Ok(*first == path(alloc, second)?)
}

fn are_same(alloc: Global, words: &str) -> Result<bool, RowFault> {
    let (first, second) = cut(words, " ")?;
    is_same(alloc, &path(alloc, first)?, second)
}

// Whether the question has the answer.
fn has_answer(
    alloc: Global,
    view: &DueView<ListGraph>,
    question: &str,
    answer: &str,
    reads: &mut Reads,
) -> Result<bool, RowFault> {
    let (asked, of) = cut(question, " ")?;
    match asked {
        "is" => Ok(is_said(is_of_class(alloc, view, of, reads)?, answer)),
        "same" => Ok(is_said(are_same(alloc, of)?, answer)),
        _ => Ok(are_nodes(&found(alloc, view, asked, node(of)?, reads)?, answer)),
    }
}

// Whether it has, and all keys that are due were looked up, and no others.
fn is_answered(
    alloc: Global,
    graph: &ListGraph,
    question: &str,
    answer: &str,
    due: &Reads,
) -> Result<bool, RowFault> {
    let view = DueView::new(graph, due);
    let mut reads = Reads::new(alloc);
    Ok(has_answer(alloc, &view, question, answer, &mut reads)? && view.are_read(&reads))
}

// The same of a graph by its triples.
fn is_answered_in(
    alloc: Global,
    triples: &str,
    question: &str,
    answer: &str,
    due: &Reads,
) -> Result<bool, RowFault> {
    is_answered(alloc, &graph(alloc, triples)?, question, answer, due)
}

// Whether a row's question has its answer, and its keys are looked up.
fn is_as_said(alloc: Global, row: &str) -> Result<bool, RowFault> {
    let (triples, question, answer, read) = in_four(row, " : ")?;
    is_answered_in(alloc, triples, question, answer, &keys(alloc, read)?)
}

#[test]
fn questions_have_their_answers(rt: HostRuntime) -> Result<(), Fail> {
    all_met(rt.alloc(), QUESTIONS, is_as_said)
}

#[test]
fn laws_are_at_hand() {
    paths_lead_to_what_they_relate();
    paths_depend_on_their_reads();
    edits_beside_a_path();
    equal_paths_have_one_route();
    instances_are_told();
    instances_depend_on_their_reads();
    a_type_tells_of_its_node_alone();
}
