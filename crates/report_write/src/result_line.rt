//! The lines of one result: what was found, the messages of its source shape, and its details.
ghost use Rattle.std.specs.Prelude.{codes, flat_map};
ghost use Rattle.std.specs.Option.{unwrap_or};
ghost use Rattle.shape_eval.specs.Planned.{plan_of};
ghost use Rattle.text_output.specs.declared.format.Format.TheVariants.{Lines};
ghost use Rattle.report_write.specs.ResultLines.{detail_line, finding_line, lines_text, message_text};
ghost use Rattle.report_write.specs.ResultLines.{source_text};
ghost use Rattle.report_write.specs.ResultPaths.{result_path_text};

use crate::path::add_path;
use crate::result_names::{add_severity, component_name};
use comp_core::{DetailRow, ResultRow};
use path_eval::LaidPath;
use shape_eval::{Plan, PlanShape};
use shx_term::{Id, Pieces, Pool};
use text_output::{Format, add_optional, add_term};

/// Adds the lines of a result of this source shape.
pub(crate) fn add_lines<W: Pieces>(
    row: &ResultRow,
    shape: &PlanShape,
    plan: &Plan,
    pool: &Pool,
    out: &mut W,
)
    ensures { W.added out.old out.new
        (lines_text pool.now.terms (plan_of plan.now).shapes row.now shape.now) }
{
    add_finding("result", &row.without_details(), shape, pool, out);
    add_messages(&shape.messages, pool, out);
    add_details(row.details.as_slice(), plan, pool, out);
}

// What was found, as a line behind a word.
fn add_finding<W: Pieces>(word: &str, row: &DetailRow, shape: &PlanShape, pool: &Pool, out: &mut W)
    ensures { W.added out.old out.new (finding_line word.now pool.now.terms row.now shape.now) }
{
    add_source(word, row, shape, pool, out);
    out.add(b" ");
    add_result_path(row.predicate, &shape.path, pool, out);
    out.add(b" ");
    add_optional(row.value, pool, out);
    out.add(b"\n");
}

// The line up to its focus node.
fn add_source<W: Pieces>(word: &str, row: &DetailRow, shape: &PlanShape, pool: &Pool, out: &mut W)
    ensures { W.added out.old out.new (source_text word.now pool.now.terms row.now shape.now) }
{
    out.add(word.as_bytes());
    out.add(b" ");
    out.add(component_name(row.kind).as_bytes());
    out.add(b" ");
    add_severity(shape.severity, pool, out);
    out.add(b" ");
    add_term(shape.node, pool, out);
    out.add(b" ");
    add_term(row.focus, pool, out);
}

// The path of a result, or `-` where there is none.
fn add_result_path<W: Pieces>(
    predicate: Option<Id>,
    path: &Option<LaidPath>,
    pool: &Pool,
    out: &mut W,
)
    ensures { W.added out.old out.new
        (unwrap_or (result_path_text Lines pool.now.terms predicate path.now) (codes "-")) }
{
    match (predicate, path) {
        (Some(predicate), _) => add_term(predicate, pool, out),
        (None, Some(path)) => add_path(path.path(), Format::Lines, pool, out),
        (None, None) => out.add(b"-"),
    }
}

fn add_messages<W: Pieces>(messages: &[Id], pool: &Pool, out: &mut W)
    ensures { W.added out.old out.new (flat_map (message_text pool.now.terms) messages.now) }
{
    for message in messages {
        add_message(*message, pool, out);
    }
}

fn add_message<W: Pieces>(message: Id, pool: &Pool, out: &mut W)
    ensures { W.added out.old out.new (message_text pool.now.terms message) }
{
    out.add(b"message ");
    add_term(message, pool, out);
    out.add(b"\n");
}

fn add_details<W: Pieces>(details: &[DetailRow], plan: &Plan, pool: &Pool, out: &mut W)
    ensures { W.added out.old out.new
        (flat_map (detail_line pool.now.terms (plan_of plan.now).shapes) details.now) }
{
    for detail in details {
        add_detail(detail, plan, pool, out);
    }
}

fn add_detail<W: Pieces>(detail: &DetailRow, plan: &Plan, pool: &Pool, out: &mut W)
    ensures { W.added out.old out.new
        (detail_line pool.now.terms (plan_of plan.now).shapes detail.now) }
{
    if detail.shape >= plan.len() {
        return;
    }
    add_finding("detail", detail, plan.shape(detail.shape), pool, out);
}
