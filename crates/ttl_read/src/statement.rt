//! One statement.
ghost use Rattle.std.specs.Prelude.{◌≡◌, codes, OnOk, Ok, true};
ghost use Rattle.shx_term.specs.Pool.{Pooled};
ghost use Rattle.ttl_tokens.specs.declared.token.TokenKind.TheVariants.{Dot, LangTag};
ghost use Rattle.ttl_tokens.specs.Form.{Or, Then};
ghost use Rattle.ttl_meaning.specs.KeepsTerms.{KeepsTerms};
ghost use Rattle.ttl_read.specs.Grammar.{base_setting, is_kind, mark, prefix_binding, statement, tag_word};
ghost use Rattle.ttl_read.specs.inner.Reads.{Advances, ParsesAlone, Stands};

use crate::directive::{base_setting, dot, prefix_binding};
use crate::reader::{Reader, Refused};
use crate::triples::triples;
use shx_term::Pool;
use ttl_tokens::{Token, TokenKind};

// statement
pub(crate) fn statement(
    text: &str,
    reader: &mut Reader,
    pool: &mut Pool,
    depth: u32,
) -> Result<(), Refused>
    requires stands { Stands text.now reader.old.tokens }
    ensures keeps { KeepsTerms pool.old pool.new }
    ensures advances { OnOk result (Advances text.now reader.old.tokens reader.new.tokens) }
    ensures parses { ParsesAlone text.now (statement text.now depth)
        reader.old pool.old reader.new pool.new result }
{
    reader.reading.begin_statement()?;
    let Ok(token) = reader.tokens.next else {
        return Err(Refused::Syntax);
    };
    if token.kind == TokenKind::LangTag {
        return tagged_directive(text, reader, token);
    }
    if token.kind == TokenKind::WordPrefix {
        reader.tokens.pass(text, token);
        return prefix_binding(text, reader);
    }
    if token.kind == TokenKind::WordBase {
        reader.tokens.pass(text, token);
        return base_setting(text, reader);
    }
    triples(text, reader, pool, depth)?;
    dot(text, reader)
}

// A directive that begins with `@`.
fn tagged_directive(text: &str, reader: &mut Reader, token: Token) -> Result<(), Refused>
    requires stands { Stands text.now reader.old.tokens }
    requires next { reader.old.tokens.next ≡ Ok token }
    requires kind { is_kind LangTag token.kind ≡ true }
    ensures advances { OnOk result (Advances text.now reader.old.tokens reader.new.tokens) }
    ensures parses { (pool : Pooled) → ParsesAlone text.now
        (Or (Then (tag_word text.now (codes "@prefix")) (Then (prefix_binding text.now) (mark Dot)))
        (Then (tag_word text.now (codes "@base")) (Then (base_setting text.now) (mark Dot))))
        reader.old pool reader.new pool result }
{
    let word = &text[token.start..token.end];
    if word == "@prefix" {
        reader.tokens.pass(text, token);
        prefix_binding(text, reader)?;
        return dot(text, reader);
    }
    if word == "@base" {
        reader.tokens.pass(text, token);
        base_setting(text, reader)?;
        return dot(text, reader);
    }
    Err(Refused::Syntax)
}
