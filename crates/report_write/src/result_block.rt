//! One result in Turtle: a blank node with what was found, where that comes from, and its details.
ghost use Rattle.std.specs.Prelude.{◌++◌, codes, flat_map};
ghost use Rattle.std.specs.Option.{option_map};
ghost use Rattle.shape_eval.specs.Planned.{plan_of};
ghost use Rattle.text_output.specs.TermTexts.{number_text};
ghost use Rattle.text_output.specs.declared.format.Format.TheVariants.{Turtle};
ghost use Rattle.report_write.specs.ResultBlocks.{block_text, component_text, detail_text, finding_text};
ghost use Rattle.report_write.specs.ResultBlocks.{found_text, nested_text, optional_property, origin_text};
ghost use Rattle.report_write.specs.ResultBlocks.{property_text};
ghost use Rattle.report_write.specs.ResultPaths.{result_path_text};

use crate::path::add_path;
use crate::result_names::component_name;
use comp_core::{DetailRow, Kind, ResultRow};
use path_eval::LaidPath;
use shape_eval::{Plan, PlanShape};
use shx_term::{Id, Pieces, Pool};
use text_output::{Format, add_term};

// What stands before the name of a property.
const IN_RESULT: &str = " ;\n    sh:";

const IN_DETAIL: &str = " ;\n      sh:";

/// Adds the blank node of a result of this source shape.
pub(crate) fn add_block<W: Pieces>(
    row: &ResultRow,
    shape: &PlanShape,
    plan: &Plan,
    pool: &Pool,
    out: &mut W,
)
    ensures { W.added out.old out.new
        (block_text pool.now.terms (plan_of plan.now).shapes row.now shape.now) }
{
    out.add(b" ;\n  sh:result [\n    a sh:ValidationResult");
    add_finding(
        IN_RESULT,
        &row.without_details(),
        shape,
        &shape.messages,
        pool,
        out,
    );
    add_details(row.details.as_slice(), plan, pool, out);
    out.add(b"\n  ]");
}

fn add_details<W: Pieces>(details: &[DetailRow], plan: &Plan, pool: &Pool, out: &mut W)
    ensures { W.added out.old out.new
        (flat_map (detail_text pool.now.terms (plan_of plan.now).shapes) details.now) }
{
    for detail in details {
        add_detail(detail, plan, pool, out);
    }
}

fn add_detail<W: Pieces>(detail: &DetailRow, plan: &Plan, pool: &Pool, out: &mut W)
    ensures { W.added out.old out.new
        (detail_text pool.now.terms (plan_of plan.now).shapes detail.now) }
{
    if detail.shape >= plan.len() {
        return;
    }
    add_nested(detail, plan.shape(detail.shape), pool, out);
}

// The blank node of a detail, without messages.
fn add_nested<W: Pieces>(detail: &DetailRow, shape: &PlanShape, pool: &Pool, out: &mut W)
    ensures { W.added out.old out.new (nested_text pool.now.terms detail.now shape.now) }
{
    out.add(b" ;\n    sh:detail [\n      a sh:ValidationResult");
    add_finding(IN_DETAIL, detail, shape, &[], pool, out);
    out.add(b"\n    ]");
}

// What was found and where that comes from, with these messages.
fn add_finding<W: Pieces>(
    before: &str,
    row: &DetailRow,
    shape: &PlanShape,
    messages: &[Id],
    pool: &Pool,
    out: &mut W,
)
    ensures { W.added out.old out.new
        (finding_text before.now pool.now.terms messages.now row.now shape.now) }
{
    add_found(before, row, shape, pool, out);
    add_origin(before, row.kind, shape, messages, pool, out);
}

// The focus node, the path and the value.
fn add_found<W: Pieces>(before: &str, row: &DetailRow, shape: &PlanShape, pool: &Pool, out: &mut W)
    ensures { W.added out.old out.new (found_text before.now pool.now.terms row.now shape.now) }
{
    add_term_property(before, "focusNode", row.focus, pool, out);
    add_path_property(before, row.predicate, &shape.path, pool, out);
    add_value_property(before, row.value, pool, out);
}

// The source shape, the component, the messages and the severity.
fn add_origin<W: Pieces>(
    before: &str,
    kind: Kind,
    shape: &PlanShape,
    messages: &[Id],
    pool: &Pool,
    out: &mut W,
)
    ensures { W.added out.old out.new
        (origin_text before.now pool.now.terms messages.now kind shape.now) }
{
    add_term_property(before, "sourceShape", shape.node, pool, out);
    add_component_property(before, kind, out);
    add_message_properties(before, messages, pool, out);
    add_term_property(before, "resultSeverity", shape.severity, pool, out);
}

fn add_term_property<W: Pieces>(before: &str, name: &str, value: Id, pool: &Pool, out: &mut W)
    ensures { W.added out.old out.new
        (property_text before.now name.now (number_text pool.now.terms value)) }
{
    open_property(before, name, out);
    add_term(value, pool, out);
}

// A property up to its value.
fn open_property<W: Pieces>(before: &str, name: &str, out: &mut W)
    ensures { W.added out.old out.new (before.now ++ name.now ++ codes " ") }
{
    out.add(before.as_bytes());
    out.add(name.as_bytes());
    out.add(b" ");
}

// The path of a result, where it has one.
fn add_path_property<W: Pieces>(
    before: &str,
    predicate: Option<Id>,
    path: &Option<LaidPath>,
    pool: &Pool,
    out: &mut W,
)
    ensures { W.added out.old out.new (optional_property before.now (codes "resultPath")
        (result_path_text Turtle pool.now.terms predicate path.now)) }
{
    match (predicate, path) {
        (Some(predicate), _) => add_term_property(before, "resultPath", predicate, pool, out),
        (None, Some(path)) => {
            open_property(before, "resultPath", out);
            add_path(path.path(), Format::Turtle, pool, out);
        }
        (None, None) => {}
    }
}

// The value of a result, where it has one.
fn add_value_property<W: Pieces>(before: &str, value: Option<Id>, pool: &Pool, out: &mut W)
    ensures { W.added out.old out.new
        (optional_property before.now (codes "value") (option_map (number_text pool.now.terms) value)) }
{
    match value {
        Some(value) => add_term_property(before, "value", value, pool, out),
        None => {}
    }
}

fn add_component_property<W: Pieces>(before: &str, kind: Kind, out: &mut W)
    ensures { W.added out.old out.new
        (property_text before.now (codes "sourceConstraintComponent") (component_text kind)) }
{
    open_property(before, "sourceConstraintComponent", out);
    out.add(b"sh:");
    out.add(component_name(kind).as_bytes());
    out.add(b"ConstraintComponent");
}

fn add_message_properties<W: Pieces>(before: &str, messages: &[Id], pool: &Pool, out: &mut W)
    ensures { W.added out.old out.new (flat_map
        (λ message. property_text before.now (codes "resultMessage") (number_text pool.now.terms message))
        messages.now) }
{
    for message in messages {
        add_term_property(before, "resultMessage", *message, pool, out);
    }
}
