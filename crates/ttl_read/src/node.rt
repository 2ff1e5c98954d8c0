//! IRIs, blank nodes and verbs.
ghost use Rattle.std.specs.Prelude.{◌≡◌, OnOk, Ok, true};
ghost use Rattle.shx_term.specs.Pool.{Pooled};
ghost use Rattle.ttl_tokens.specs.declared.token.TokenKind.TheVariants.{WordA};
ghost use Rattle.ttl_meaning.specs.Items.{on_a};
ghost use Rattle.ttl_meaning.specs.KeepsTerms.{KeepsTerms};
ghost use Rattle.ttl_read.specs.Grammar.{blank_node, iri, is_kind, node, sign, verb};
ghost use Rattle.ttl_read.specs.inner.Reads.{Advances, ParsesAlone, Stands};

use crate::groups::is_iri;
use crate::reader::{Reader, Refused};
use shx_term::Pool;
use ttl_meaning::IriRole;
use ttl_tokens::{Token, TokenKind};

// iri
pub(crate) fn iri(
    text: &str,
    reader: &mut Reader,
    pool: &mut Pool,
    role: IriRole,
) -> Result<(), Refused>
    requires stands { Stands text.now reader.old.tokens }
    ensures keeps { KeepsTerms pool.old pool.new }
    ensures advances { OnOk result (Advances text.now reader.old.tokens reader.new.tokens) }
    ensures parses { ParsesAlone text.now (iri text.now role)
        reader.old pool.old reader.new pool.new result }
{
    let Ok(token) = reader.tokens.next else {
        return Err(Refused::Syntax);
    };
    if !is_iri(token.kind) {
        return Err(Refused::Syntax);
    }
    reader.reading.on_iri(pool, text, role, &token)?;
    reader.tokens.pass(text, token);
    Ok(())
}

// BlankNode
fn blank_node(text: &str, reader: &mut Reader, pool: &mut Pool) -> Result<(), Refused>
    requires stands { Stands text.now reader.old.tokens }
    ensures keeps { KeepsTerms pool.old pool.new }
    ensures advances { OnOk result (Advances text.now reader.old.tokens reader.new.tokens) }
    ensures parses { ParsesAlone text.now (blank_node text.now)
        reader.old pool.old reader.new pool.new result }
{
    let Ok(token) = reader.tokens.next else {
        return Err(Refused::Syntax);
    };
    if token.kind == TokenKind::BlankLabel {
        reader.reading.on_label(pool, text, &token)?;
        reader.tokens.pass(text, token);
        return Ok(());
    }
    if token.kind == TokenKind::Anon {
        reader.reading.on_anon(pool)?;
        reader.tokens.pass(text, token);
        return Ok(());
    }
    Err(Refused::Syntax)
}

// iri | BlankNode
pub(crate) fn node(text: &str, reader: &mut Reader, pool: &mut Pool) -> Result<(), Refused>
    requires stands { Stands text.now reader.old.tokens }
    ensures keeps { KeepsTerms pool.old pool.new }
    ensures advances { OnOk result (Advances text.now reader.old.tokens reader.new.tokens) }
    ensures parses { ParsesAlone text.now (node text.now)
        reader.old pool.old reader.new pool.new result }
{
    match reader.tokens.next {
        Ok(token) => {
            if is_iri(token.kind) {
                iri(text, reader, pool, IriRole::Node)
            } else {
                blank_node(text, reader, pool)
            }
        }
        Err(_) => Err(Refused::Syntax),
    }
}

// verb
pub(crate) fn verb(text: &str, reader: &mut Reader, pool: &mut Pool) -> Result<(), Refused>
    requires stands { Stands text.now reader.old.tokens }
    ensures keeps { KeepsTerms pool.old pool.new }
    ensures advances { OnOk result (Advances text.now reader.old.tokens reader.new.tokens) }
    ensures parses { ParsesAlone text.now (verb text.now)
        reader.old pool.old reader.new pool.new result }
{
    match reader.tokens.next {
        Ok(token) => {
            if token.kind == TokenKind::WordA {
                word_a(text, reader, token)
            } else {
                iri(text, reader, pool, IriRole::Verb)
            }
        }
        Err(_) => Err(Refused::Syntax),
    }
}

// `a` as a verb.
fn word_a(text: &str, reader: &mut Reader, token: Token) -> Result<(), Refused>
    requires stands { Stands text.now reader.old.tokens }
    requires next { reader.old.tokens.next ≡ Ok token }
    requires kind { is_kind WordA token.kind ≡ true }
    ensures advances { OnOk result (Advances text.now reader.old.tokens reader.new.tokens) }
    ensures parses { (pool : Pooled) → ParsesAlone text.now (sign WordA on_a)
        reader.old pool reader.new pool result }
{
    reader.reading.on_a()?;
    reader.tokens.pass(text, token);
    Ok(())
}
