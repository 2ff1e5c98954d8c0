//! The text of a slice.
ghost use Rattle.text_output.specs.Writes.{Writes};
ghost use Rattle.report_write.specs.Answers.{slice_text};

use crate::answer::{Answer, add_answer};
use shx_outside::Sink;
use shx_term::{Pieces, Pool, Triple};
use text_output::{Format, WriteFault, Writer};

/// Puts how many triples a slice has, and then each of them in a line. It takes no memory, and time linear in
/// the text.
///
/// # Errors
///
/// The sink failed, and a proper front of the text was put.
pub fn write_slice<O: Sink>(
    triples: &[Triple],
    pool: &Pool,
    format: Format,
    out: &mut O,
) -> Result<(), WriteFault>
    ensures { Writes (O.state out.old) (O.state out.new)
        (slice_text format pool.now.terms triples.now) result }
{
    let mut writer = Writer::new(out);
    add_answers(triples, pool, format, &mut writer);
    writer.finish()
}

// Adds the answers of a slice.
fn add_answers<W: Pieces>(triples: &[Triple], pool: &Pool, format: Format, out: &mut W)
    ensures { W.added out.old out.new (slice_text format pool.now.terms triples.now) }
{
    let size = Answer::Slice {
        triples: triples.len() as u64,
    };
    add_answer(&size, pool, format, out);
    for triple in triples {
        add_answer(&Answer::SliceTriple(*triple), pool, format, out);
    }
}
