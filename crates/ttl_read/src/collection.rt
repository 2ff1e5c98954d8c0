//! Collections and property lists.
ghost use Rattle.std.specs.Prelude.{◌≡◌, OnOk, Ok, true};
ghost use Rattle.shx_term.specs.Pool.{Pooled};
ghost use Rattle.ttl_tokens.specs.declared.token.TokenKind.TheVariants.{CloseSquare, OpenRound};
ghost use Rattle.ttl_tokens.specs.declared.token.TokenKind.TheVariants.{OpenSquare};
ghost use Rattle.ttl_tokens.specs.Form.{Then};
ghost use Rattle.ttl_meaning.specs.Items.{behind_member, close_node};
ghost use Rattle.ttl_meaning.specs.KeepsTerms.{KeepsTerms};
ghost use Rattle.ttl_read.specs.Grammar.{collection, do_, is_kind, members, object, property_list, sign};
ghost use Rattle.ttl_read.specs.inner.Reads.{Advances, Parses, ParsesAlone, Stands};
ghost use Rattle.ttl_read.specs.inner.Stops.{goes_on, stops_nowhere};

use crate::object::object;
use crate::reader::{Reader, Refused};
use crate::triples::predicate_object_list;
use shx_term::Pool;
use ttl_tokens::{Token, TokenKind};

// collection
#[cycle(objects)]
pub(crate) fn collection(
    text: &str,
    reader: &mut Reader,
    pool: &mut Pool,
    bracket: Token,
    depth: u32,
) -> Result<(), Refused>
    requires stands { Stands text.now reader.old.tokens }
    requires next { reader.old.tokens.next ≡ Ok bracket }
    requires kind { is_kind OpenRound bracket.kind ≡ true }
    ensures keeps { KeepsTerms pool.old pool.new }
    ensures advances { OnOk result (Advances text.now reader.old.tokens reader.new.tokens) }
    ensures parses { Parses text.now (collection (object text.now depth)) stops_nowhere
        reader.old pool.old reader.new pool.new result }
{
    reader.tokens.pass(text, bracket);
    match reader.tokens.next_of(TokenKind::CloseRound) {
        Some(close) => {
            reader.reading.empty_list(pool)?;
            reader.tokens.pass(text, close);
            Ok(())
        }
        None => members(text, reader, pool, depth),
    }
}

// object+ ')'
#[cycle(objects)]
fn members(text: &str, reader: &mut Reader, pool: &mut Pool, depth: u32) -> Result<(), Refused>
    requires stands { Stands text.now reader.old.tokens }
    ensures keeps { KeepsTerms pool.old pool.new }
    ensures advances { OnOk result (Advances text.now reader.old.tokens reader.new.tokens) }
    ensures parses { Parses text.now (members (object text.now depth)) stops_nowhere
        reader.old pool.old reader.new pool.new result }
{
    reader.reading.first_cell(pool)?;
    member(text, reader, pool, depth)?;
    loop {
        if let Some(close) = reader.tokens.next_of(TokenKind::CloseRound) {
            reader.reading.end_list(pool)?;
            reader.tokens.pass(text, close);
            return Ok(());
        }
        reader.reading.next_cell(pool)?;
        member(text, reader, pool, depth)?;
    }
}

// A member of a collection, whose cell was made.
#[cycle(objects)]
fn member(text: &str, reader: &mut Reader, pool: &mut Pool, depth: u32) -> Result<(), Refused>
    requires stands { Stands text.now reader.old.tokens }
    ensures keeps { KeepsTerms pool.old pool.new }
    ensures advances { OnOk result (Advances text.now reader.old.tokens reader.new.tokens) }
    ensures parses { Parses text.now (Then (object text.now depth) (do_ behind_member)) goes_on
        reader.old pool.old reader.new pool.new result }
{
    object(text, reader, pool, depth)?;
    reader.reading.behind_member()?;
    Ok(())
}

// blankNodePropertyList
#[cycle(objects)]
pub(crate) fn property_list(
    text: &str,
    reader: &mut Reader,
    pool: &mut Pool,
    bracket: Token,
    depth: u32,
) -> Result<(), Refused>
    requires stands { Stands text.now reader.old.tokens }
    requires next { reader.old.tokens.next ≡ Ok bracket }
    requires kind { is_kind OpenSquare bracket.kind ≡ true }
    ensures keeps { KeepsTerms pool.old pool.new }
    ensures advances { OnOk result (Advances text.now reader.old.tokens reader.new.tokens) }
    ensures parses { Parses text.now (property_list text.now (object text.now depth)) stops_nowhere
        reader.old pool.old reader.new pool.new result }
{
    reader.reading.open_node(pool)?;
    reader.tokens.pass(text, bracket);
    predicate_object_list(text, reader, pool, depth)?;
    close_square(text, reader)
}

// ']'
fn close_square(text: &str, reader: &mut Reader) -> Result<(), Refused>
    requires stands { Stands text.now reader.old.tokens }
    ensures advances { OnOk result (Advances text.now reader.old.tokens reader.new.tokens) }
    ensures parses { (pool : Pooled) → ParsesAlone text.now (sign CloseSquare close_node)
        reader.old pool reader.new pool result }
{
    let Some(token) = reader.tokens.next_of(TokenKind::CloseSquare) else {
        return Err(Refused::Syntax);
    };
    reader.reading.close_node();
    reader.tokens.pass(text, token);
    Ok(())
}
