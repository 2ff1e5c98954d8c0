//! The triples of a subject.
ghost use Rattle.std.specs.Prelude.{◌≡◌, ◌≤◌, ◌<◌, ◌+◌, ◌^◌, OnOk, Ok, true};
ghost use Rattle.ttl_tokens.specs.declared.token.TokenKind.TheVariants.{OpenSquare};
ghost use Rattle.ttl_tokens.specs.Form.{Maybe};
ghost use Rattle.ttl_meaning.specs.KeepsTerms.{KeepsTerms};
ghost use Rattle.ttl_read.specs.Grammar.{is_kind, node_triples, object, predicate_object_list, subject};
ghost use Rattle.ttl_read.specs.Grammar.{triples, verb_objects};
ghost use Rattle.ttl_read.specs.inner.Reads.{Advances, Parses, Stands};
ghost use Rattle.ttl_read.specs.inner.Stops.{list_goes_on, predicates_go_on, stops_nowhere, verbs_go_on};

use crate::collection::{collection, property_list};
use crate::node::{node, verb};
use crate::object::object_list;
use crate::reader::{Reader, Refused};
use shx_term::Pool;
use ttl_tokens::{Token, TokenKind};

// triples
pub(crate) fn triples(
    text: &str,
    reader: &mut Reader,
    pool: &mut Pool,
    depth: u32,
) -> Result<(), Refused>
    requires stands { Stands text.now reader.old.tokens }
    ensures keeps { KeepsTerms pool.old pool.new }
    ensures advances { OnOk result (Advances text.now reader.old.tokens reader.new.tokens) }
    ensures parses { Parses text.now (triples text.now depth) predicates_go_on
        reader.old pool.old reader.new pool.new result }
{
    let Ok(token) = reader.tokens.next else {
        return Err(Refused::Syntax);
    };
    if depth > 0 && token.kind == TokenKind::OpenSquare {
        return node_triples(text, reader, pool, token, depth - 1);
    }
    subject(text, reader, pool, token, depth)?;
    predicate_object_list(text, reader, pool, depth)
}

// blankNodePropertyList predicateObjectList?
fn node_triples(
    text: &str,
    reader: &mut Reader,
    pool: &mut Pool,
    bracket: Token,
    depth: u32,
) -> Result<(), Refused>
    requires stands { Stands text.now reader.old.tokens }
    requires next { reader.old.tokens.next ≡ Ok bracket }
    requires kind { is_kind OpenSquare bracket.kind ≡ true }
    requires fits { depth + 1 < 2 ^ 32 }
    ensures keeps { KeepsTerms pool.old pool.new }
    ensures advances { OnOk result (Advances text.now reader.old.tokens reader.new.tokens) }
    ensures parses { Parses text.now (node_triples text.now depth) predicates_go_on
        reader.old pool.old reader.new pool.new result }
{
    property_list(text, reader, pool, bracket, depth)?;
    if reader.tokens.next_verb().is_some() {
        predicate_object_list(text, reader, pool, depth + 1)
    } else {
        Ok(())
    }
}

// subject
fn subject(
    text: &str,
    reader: &mut Reader,
    pool: &mut Pool,
    token: Token,
    depth: u32,
) -> Result<(), Refused>
    requires stands { Stands text.now reader.old.tokens }
    requires next { reader.old.tokens.next ≡ Ok token }
    ensures keeps { KeepsTerms pool.old pool.new }
    ensures advances { OnOk result (Advances text.now reader.old.tokens reader.new.tokens) }
    ensures parses { Parses text.now (subject text.now depth) stops_nowhere
        reader.old pool.old reader.new pool.new result }
{
    if depth > 0 && token.kind == TokenKind::OpenRound {
        return collection(text, reader, pool, token, depth - 1);
    }
    node(text, reader, pool)
}

// predicateObjectList
#[cycle(objects)]
pub(crate) fn predicate_object_list(
    text: &str,
    reader: &mut Reader,
    pool: &mut Pool,
    depth: u32,
) -> Result<(), Refused>
    requires stands { Stands text.now reader.old.tokens }
    ensures keeps { KeepsTerms pool.old pool.new }
    ensures advances { OnOk result (Advances text.now reader.old.tokens reader.new.tokens) }
    ensures parses { Parses text.now (predicate_object_list text.now (object text.now depth)) predicates_go_on
        reader.old pool.old reader.new pool.new result }
{
    verb_objects(text, reader, pool, depth)?;
    while let Some(semicolon) = reader.tokens.next_of(TokenKind::Semicolon) {
        reader.tokens.pass(text, semicolon);
        more_objects(text, reader, pool, depth)?;
    }
    Ok(())
}

// Behind a semicolon a verb and its objects, or nothing.
#[cycle(objects)]
fn more_objects(text: &str, reader: &mut Reader, pool: &mut Pool, depth: u32) -> Result<(), Refused>
    requires stands { Stands text.now reader.old.tokens }
    ensures keeps { KeepsTerms pool.old pool.new }
    ensures stands { OnOk result (Stands text.now reader.new.tokens) }
    ensures further { OnOk result (reader.old.tokens.place ≤ reader.new.tokens.place) }
    ensures parses { Parses text.now (Maybe (verb_objects text.now (object text.now depth))) verbs_go_on
        reader.old pool.old reader.new pool.new result }
{
    if reader.tokens.next_verb().is_some() {
        verb_objects(text, reader, pool, depth)
    } else {
        Ok(())
    }
}

// verb objectList
#[cycle(objects)]
fn verb_objects(text: &str, reader: &mut Reader, pool: &mut Pool, depth: u32) -> Result<(), Refused>
    requires stands { Stands text.now reader.old.tokens }
    ensures keeps { KeepsTerms pool.old pool.new }
    ensures advances { OnOk result (Advances text.now reader.old.tokens reader.new.tokens) }
    ensures parses { Parses text.now (verb_objects text.now (object text.now depth)) list_goes_on
        reader.old pool.old reader.new pool.new result }
{
    verb(text, reader, pool)?;
    object_list(text, reader, pool, depth)
}
