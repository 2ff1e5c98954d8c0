ghost use Rattle.std.specs.Prelude.{Some, option_copied};
ghost use Rattle.text_output.specs.Writes.{Writes};
ghost use Rattle.shacl_drill.specs.Summary.{count_summary, summary_of, usage_text};

use crate::tally::{Tally, part};
use shx_outside::Sink;
use shx_term::Pieces;
use text_output::{WriteFault, Writer, add_number};

/// Puts the summary of a drill whole. It takes no memory.
///
/// # Errors
///
/// The sink failed, and a proper front of the summary was put.
pub fn write_summary<O: Sink>(
    size: u64,
    tally: &Tally<'_>,
    status: u8,
    out: &mut O,
) -> Result<(), WriteFault>
    ensures { Writes (O.state out.old) (O.state out.new) (summary_of size tally.now status) result }
{
    let mut writer = Writer::new(out);
    add_summary(size, tally, status, &mut writer);
    writer.finish()
}

/// Puts the usage whole. It takes no memory.
///
/// # Errors
///
/// The sink failed, and a proper front of the usage was put.
pub fn write_usage<O: Sink>(out: &mut O) -> Result<(), WriteFault>
    ensures { Writes (O.state out.old) (O.state out.new) usage_text result }
{
    let mut writer = Writer::new(out);
    add_usage(&mut writer);
    writer.finish()
}

fn add_usage<W: Pieces>(out: &mut W)
    ensures { W.added out.old out.new usage_text }
{
    out.add(b"usage: shacl_drill N\n");
}

fn add_summary<W: Pieces>(size: u64, tally: &Tally<'_>, status: u8, out: &mut W)
    ensures { W.added out.old out.new (summary_of size tally.now status) }
{
    out.add(b"drill ");
    add_number(size, out);
    out.add(b" edits ");
    add_number(tally.edits, out);
    out.add(b" changed ");
    add_number(tally.changed, out);
    out.add(b" evaluated ");
    add_number(tally.evaluated, out);
    add_count(tally.last_count, out);
    out.add(b" status ");
    add_number(status, out);
    out.add(b"\n");
}

// Adds what a line with a count has, and zeros where there is no line.
fn add_count<W: Pieces>(line: Option<&[u8]>, out: &mut W)
    ensures { W.added out.old out.new (count_summary (option_copied line.entry)) }
{
    match line {
        Some(line) => add_parts(line, out),
        None => out.add(b" triples 0 pairs 0 results 0"),
    }
}

fn add_parts<W: Pieces>(line: &[u8], out: &mut W)
    ensures { W.added out.old out.new (count_summary (Some line.now)) }
{
    out.add(b" triples ");
    out.add(part(2, line));
    out.add(b" pairs ");
    out.add(part(4, line));
    out.add(b" results ");
    out.add(part(6, line));
}
