//! Terms, and terms by their numbers.
ghost use Rattle.shx_term.specs.Spelling.{spelling_of};
ghost use Rattle.text_output.specs.TermTexts.{number_text, optional_text};
ghost use Rattle.text_output.specs.Writes.{Writes};

use crate::{WriteFault, Writer};
use shx_outside::Sink;
use shx_term::{Id, Pieces, Pool, Term};

/// Puts the spelling of a term whole. It takes no memory, and time linear in the spelling.
pub fn write_term<O: Sink>(term: &Term, out: &mut O) -> Result<(), WriteFault>
    ensures { Writes (O.state out.old) (O.state out.new) (spelling_of term.now) result }
{
    let mut writer = Writer::new(out);
    shx_term::write_term(term, &mut writer);
    writer.finish()
}

/// Adds the spelling of a number's term, or nothing where it has none.
pub fn add_term<W: Pieces>(id: Id, pool: &Pool, out: &mut W)
    ensures { W.added out.old out.new (number_text pool.now.terms id) }
{
    if id >= pool.len() {
        return;
    }
    shx_term::write_term(pool.term(id), out)
}

/// The same, or `-` where there is no number.
pub fn add_optional<W: Pieces>(id: Option<Id>, pool: &Pool, out: &mut W)
    ensures { W.added out.old out.new (optional_text pool.now.terms id) }
{
    match id {
        Some(id) => add_term(id, pool, out),
        None => out.add(b"-"),
    }
}
