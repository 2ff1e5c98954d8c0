//! Literals.
ghost use Rattle.std.specs.Prelude.{◌≡◌, ◌≤◌, OnOk, Ok, true};
ghost use Rattle.ttl_meaning.specs.KeepsTerms.{KeepsTerms};
ghost use Rattle.ttl_read.specs.Grammar.{is_string, literal, string_end, string_literal};
ghost use Rattle.ttl_read.specs.inner.Reads.{Advances, Parses, Stands};
ghost use Rattle.ttl_read.specs.inner.Stops.{goes_on};

use crate::groups::{is_bare_literal, is_string};
use crate::node::iri;
use crate::reader::{Reader, Refused};
use shx_term::Pool;
use ttl_meaning::IriRole;
use ttl_tokens::{Token, TokenKind};

// literal
pub(crate) fn literal(text: &str, reader: &mut Reader, pool: &mut Pool) -> Result<(), Refused>
    requires stands { Stands text.now reader.old.tokens }
    ensures keeps { KeepsTerms pool.old pool.new }
    ensures advances { OnOk result (Advances text.now reader.old.tokens reader.new.tokens) }
    ensures parses { Parses text.now (literal text.now) goes_on
        reader.old pool.old reader.new pool.new result }
{
    let Ok(token) = reader.tokens.next else {
        return Err(Refused::Syntax);
    };
    if is_string(token.kind) {
        return string_literal(text, reader, pool, token);
    }
    if !is_bare_literal(token.kind) {
        return Err(Refused::Syntax);
    }
    reader.reading.on_literal(pool, text, &token)?;
    reader.tokens.pass(text, token);
    Ok(())
}

// A string and what belongs to it.
fn string_literal(
    text: &str,
    reader: &mut Reader,
    pool: &mut Pool,
    token: Token,
) -> Result<(), Refused>
    requires stands { Stands text.now reader.old.tokens }
    requires next { reader.old.tokens.next ≡ Ok token }
    requires kind { is_string token.kind ≡ true }
    ensures keeps { KeepsTerms pool.old pool.new }
    ensures advances { OnOk result (Advances text.now reader.old.tokens reader.new.tokens) }
    ensures parses { Parses text.now (string_literal text.now) goes_on
        reader.old pool.old reader.new pool.new result }
{
    reader.reading.on_string(text, &token)?;
    reader.tokens.pass(text, token);
    string_end(text, reader, pool)
}

// What follows a string: its tag, its datatype or neither.
fn string_end(text: &str, reader: &mut Reader, pool: &mut Pool) -> Result<(), Refused>
    requires stands { Stands text.now reader.old.tokens }
    ensures keeps { KeepsTerms pool.old pool.new }
    ensures stands { OnOk result (Stands text.now reader.new.tokens) }
    ensures further { OnOk result (reader.old.tokens.place ≤ reader.new.tokens.place) }
    ensures parses { Parses text.now (string_end text.now) goes_on
        reader.old pool.old reader.new pool.new result }
{
    match reader.tokens.next {
        Ok(token) => end_at(text, reader, pool, token),
        Err(_) => {
            reader.reading.plain_string(pool)?;
            Ok(())
        }
    }
}

// The same, where this token comes next.
fn end_at(text: &str, reader: &mut Reader, pool: &mut Pool, token: Token) -> Result<(), Refused>
    requires stands { Stands text.now reader.old.tokens }
    requires next { reader.old.tokens.next ≡ Ok token }
    ensures keeps { KeepsTerms pool.old pool.new }
    ensures stands { OnOk result (Stands text.now reader.new.tokens) }
    ensures further { OnOk result (reader.old.tokens.place ≤ reader.new.tokens.place) }
    ensures parses { Parses text.now (string_end text.now) goes_on
        reader.old pool.old reader.new pool.new result }
{
    if token.kind == TokenKind::LangTag {
        reader.reading.on_tag(pool, text, &token)?;
        reader.tokens.pass(text, token);
        return Ok(());
    }
    if token.kind == TokenKind::Carets {
        reader.tokens.pass(text, token);
        return iri(text, reader, pool, IriRole::Datatype);
    }
    reader.reading.plain_string(pool)?;
    Ok(())
}
