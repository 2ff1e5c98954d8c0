//! Objects, and lists of them.
ghost use Rattle.std.specs.Prelude.{◌≡◌, OnOk, Ok};
ghost use Rattle.ttl_meaning.specs.KeepsTerms.{KeepsTerms};
ghost use Rattle.ttl_read.specs.Grammar.{object, object_list, plain_object};
ghost use Rattle.ttl_read.specs.inner.Reads.{Advances, Parses, Stands};
ghost use Rattle.ttl_read.specs.inner.Stops.{goes_on, list_goes_on};

use crate::collection::{collection, property_list};
use crate::groups::begins_literal;
use crate::literal::literal;
use crate::node::node;
use crate::reader::{Reader, Refused};
use shx_term::Pool;
use ttl_tokens::{Token, TokenKind};

// object, so many brackets deep at most
#[cycle(objects)]
pub(crate) fn object(
    text: &str,
    reader: &mut Reader,
    pool: &mut Pool,
    depth: u32,
) -> Result<(), Refused>
    requires stands { Stands text.now reader.old.tokens }
    ensures keeps { KeepsTerms pool.old pool.new }
    ensures advances { OnOk result (Advances text.now reader.old.tokens reader.new.tokens) }
    ensures parses { Parses text.now (object text.now depth) goes_on
        reader.old pool.old reader.new pool.new result }
{
    let Ok(token) = reader.tokens.next else {
        return Err(Refused::Syntax);
    };
    if token.kind == TokenKind::OpenRound {
        if depth == 0 {
            return Err(Refused::Syntax);
        }
        return collection(text, reader, pool, token, depth - 1);
    }
    if token.kind == TokenKind::OpenSquare {
        if depth == 0 {
            return Err(Refused::Syntax);
        }
        return property_list(text, reader, pool, token, depth - 1);
    }
    plain_object(text, reader, pool, token)
}

// An object without brackets.
fn plain_object(
    text: &str,
    reader: &mut Reader,
    pool: &mut Pool,
    token: Token,
) -> Result<(), Refused>
    requires stands { Stands text.now reader.old.tokens }
    requires next { reader.old.tokens.next ≡ Ok token }
    ensures keeps { KeepsTerms pool.old pool.new }
    ensures advances { OnOk result (Advances text.now reader.old.tokens reader.new.tokens) }
    ensures parses { Parses text.now (plain_object text.now) goes_on
        reader.old pool.old reader.new pool.new result }
{
    if begins_literal(token.kind) {
        literal(text, reader, pool)
    } else {
        node(text, reader, pool)
    }
}

// objectList
#[cycle(objects)]
pub(crate) fn object_list(
    text: &str,
    reader: &mut Reader,
    pool: &mut Pool,
    depth: u32,
) -> Result<(), Refused>
    requires stands { Stands text.now reader.old.tokens }
    ensures keeps { KeepsTerms pool.old pool.new }
    ensures advances { OnOk result (Advances text.now reader.old.tokens reader.new.tokens) }
    ensures parses { Parses text.now (object_list (object text.now depth)) list_goes_on
        reader.old pool.old reader.new pool.new result }
{
    object(text, reader, pool, depth)?;
    while let Some(comma) = reader.tokens.next_of(TokenKind::Comma) {
        reader.tokens.pass(text, comma);
        object(text, reader, pool, depth)?;
    }
    Ok(())
}
