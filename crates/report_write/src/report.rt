//! The text of a report.
ghost use Rattle.std.specs.Prelude.{◌≡◌, ◌==◌, List, codes, flat_map, if◌then◌else◌, length, map};
ghost use Rattle.std.specs.Borrow.{Bor};
ghost use Rattle.std.specs.Iterator.{Drains, IsFinite};
ghost use Rattle.comp_core.specs.declared.row.ResultRow.{ResultRow as row_type};
ghost use Rattle.text_output.specs.Writes.{Writes};
ghost use Rattle.shape_eval.specs.Planned.{plan_of};
ghost use Rattle.text_output.specs.declared.format.Format.TheVariants.{Lines, Turtle};
ghost use Rattle.report_write.specs.ReportTexts.{head_text, report_text, result_text, row_text, tail_text};

use crate::result_block::add_block;
use crate::result_line::add_lines;
use comp_core::ResultRow;
use shape_eval::{Plan, PlanShape};
use shx_outside::Sink;
use shx_term::{Pieces, Pool};
use text_output::{Format, WriteFault, Writer, add_number};

// A report in Turtle up to whether it conforms.
const OPENING: &[u8] =
    b"@prefix sh: <http://www.w3.org/ns/shacl#> .\n[] a sh:ValidationReport ;\n  sh:conforms ";

/// Puts a report of so many results. It takes no memory: what is put is gathered on the stack. It recurses as
/// deep as a path nests, and takes time linear in the text.
///
/// # Errors
///
/// The sink failed, and a proper front of the text was put.
pub fn write_report<'a, I: Iterator<Item = &'a ResultRow>, O: Sink>(
    rows: I,
    count: u64,
    plan: &Plan,
    pool: &Pool,
    format: Format,
    out: &mut O,
) -> Result<(), WriteFault>
    requires can { I.can_next rows }
    requires ends { IsFinite (I.remaining rows) }
    requires counted { (items : List (Bor row_type)) → Drains I.next_gives rows items
        → length items ≡ count }
    ensures { (items : List (Bor row_type)) × Drains I.next_gives rows items
        × Writes (O.state out.old) (O.state out.new)
        (report_text format pool.now.terms (plan_of plan.now).shapes (map (λ row. row.now) items)) result }
{
    let mut writer = Writer::new(out);
    add_head(count, format, &mut writer);
    add_rows(rows, plan, pool, format, &mut writer);
    add_tail(format, &mut writer);
    writer.finish()
}

/// Adds what opens a report that has so many results. Where they stand in several places, `add_rows` adds
/// them place by place, and `add_tail` closes the report.
pub fn add_head<W: Pieces>(count: u64, format: Format, out: &mut W)
    ensures { W.added out.old out.new (head_text format count) }
{
    match format {
        Format::Lines => add_first_line(count, out),
        Format::Turtle => add_opening(count, out),
    }
}

fn add_first_line<W: Pieces>(count: u64, out: &mut W)
    ensures { W.added out.old out.new (head_text Lines count) }
{
    if count == 0 {
        return out.add(b"report conforms=true results=0\n");
    }
    out.add(b"report conforms=false results=");
    add_number(count, out);
    out.add(b"\n");
}

fn add_opening<W: Pieces>(count: u64, out: &mut W)
    ensures { W.added out.old out.new (head_text Turtle count) }
{
    out.add(OPENING);
    out.add(conforms(count).as_bytes());
}

// Whether a report of so many results conforms, as Turtle has it.
fn conforms(count: u64) -> &'static str
    ensures { result.now ≡ (if count == 0 then codes "true" else codes "false") }
{
    if count == 0 { "true" } else { "false" }
}

/// Adds some results, in order.
pub fn add_rows<'a, I: Iterator<Item = &'a ResultRow>, W: Pieces>(
    rows: I,
    plan: &Plan,
    pool: &Pool,
    format: Format,
    out: &mut W,
)
    requires can { I.can_next rows }
    requires ends { IsFinite (I.remaining rows) }
    ensures { (items : List (Bor row_type)) × Drains I.next_gives rows items
        × W.added out.old out.new (flat_map (row_text format pool.now.terms (plan_of plan.now).shapes)
        (map (λ row. row.now) items)) }
{
    for row in rows {
        add_row(row, plan, pool, format, out);
    }
}

fn add_row<W: Pieces>(row: &ResultRow, plan: &Plan, pool: &Pool, format: Format, out: &mut W)
    ensures { W.added out.old out.new (row_text format pool.now.terms (plan_of plan.now).shapes row.now) }
{
    if row.shape >= plan.len() {
        return;
    }
    add_result(row, plan.shape(row.shape), plan, pool, format, out);
}

fn add_result<W: Pieces>(
    row: &ResultRow,
    shape: &PlanShape,
    plan: &Plan,
    pool: &Pool,
    format: Format,
    out: &mut W,
)
    ensures { W.added out.old out.new
        (result_text format pool.now.terms (plan_of plan.now).shapes row.now shape.now) }
{
    match format {
        Format::Lines => add_lines(row, shape, plan, pool, out),
        Format::Turtle => add_block(row, shape, plan, pool, out),
    }
}

/// Adds what closes a report.
pub fn add_tail<W: Pieces>(format: Format, out: &mut W)
    ensures { W.added out.old out.new (tail_text format) }
{
    match format {
        Format::Lines => {}
        Format::Turtle => out.add(b" .\n"),
    }
}
