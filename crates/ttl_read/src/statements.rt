//! The statements of a text, one after the other, and the fault of the first that has one.
ghost use Rattle.std.specs.Prelude.{◌≡◌, OnErr, OnOk};
ghost use Rattle.shx_term.specs.Pool.{Pooled as pooled};
ghost use Rattle.ttl_meaning.specs.KeepsTerms.{KeepsTerms};
ghost use Rattle.ttl_meaning.specs.State.{State};
ghost use Rattle.ttl_read.specs.Documents.{setting};
ghost use Rattle.ttl_read.specs.inner.Reads.{Advances, Stands};
ghost use Rattle.ttl_read.specs.inner.Sound.{Concludes, Holds, IsJudged, IsSound, is_end_next};

use crate::depth::too_deep;
use crate::fault::{TtlFault, code_of};
use crate::reader::{Reader, Refused};
use crate::statement::statement;
use shx_term::fault_codes::{SYNTAX, TEXT_TERMS, TEXT_TRIPLES, TOO_DEEP};
use shx_term::{Limits, Pool};
use ttl_meaning::Excess;
use ttl_tokens::TokenKind;

// All statements up to the end of the text. Where one has a fault, or memory is wanted, the pool holds the
// terms of those before it.
pub(crate) fn statements(
    text: &str,
    limits: &Limits,
    reader: &mut Reader,
    pool: &mut Pool,
) -> Result<(), TtlFault>
    requires stands { Stands text.now reader.old.tokens }
    ensures limit { pool.new.limit ≡ pool.old.limit }
    ensures holds { (before : pooled) (s : State)
        → Holds (setting text.now limits.now before) reader.old pool.old s pool.new }
    ensures concludes { (before : pooled) → Concludes (setting text.now limits.now before)
        reader.old pool.old reader.new pool.new result }
{
    while !is_at_end(reader) {
        sound_statement(text, limits, reader, pool)?;
    }
    Ok(())
}

// Whether only white space and comments follow.
fn is_at_end(reader: &Reader) -> bool
    ensures { result ≡ is_end_next reader.now.tokens.next }
{
    match reader.tokens.next {
        Ok(token) => token.kind == TokenKind::End,
        Err(_) => false,
    }
}

// One statement without fault. Otherwise the pool is as it was.
fn sound_statement(
    text: &str,
    limits: &Limits,
    reader: &mut Reader,
    pool: &mut Pool,
) -> Result<(), TtlFault>
    requires stands { Stands text.now reader.old.tokens }
    ensures limit { pool.new.limit ≡ pool.old.limit }
    ensures refused { OnErr result (pool.new.terms ≡ pool.old.terms) }
    ensures advances { OnOk result (Advances text.now reader.old.tokens reader.new.tokens) }
    ensures sound { (before : pooled) → IsSound (setting text.now limits.now before)
        reader.old pool.old reader.new pool.new result }
{
    let held = pool.len();
    let read = judged_statement(text, limits, reader, pool);
    if read.is_err() {
        pool.cut(held);
    }
    read
}

// One statement without fault, or its fault.
fn judged_statement(
    text: &str,
    limits: &Limits,
    reader: &mut Reader,
    pool: &mut Pool,
) -> Result<(), TtlFault>
    requires stands { Stands text.now reader.old.tokens }
    ensures keeps { KeepsTerms pool.old pool.new }
    ensures advances { OnOk result (Advances text.now reader.old.tokens reader.new.tokens) }
    ensures sound { (before : pooled) → IsSound (setting text.now limits.now before)
        reader.old pool.old reader.new pool.new result }
{
    let tokens = reader.tokens;
    match statement(text, reader, pool, limits.turtle_depth) {
        Ok(()) => judge(reader, pool, tokens.start()),
        Err(Refused::Syntax) => match too_deep(text, &tokens, limits.turtle_depth) {
            Some(at) => Err(TtlFault::At {
                code: TOO_DEEP,
                at: at as u64,
            }),
            None => Err(TtlFault::At {
                code: SYNTAX,
                at: tokens.start() as u64,
            }),
        },
        Err(Refused::Memory) => Err(TtlFault::Memory),
    }
}

// The fault that is known behind a statement that began at this byte.
fn judge(reader: &Reader, pool: &Pool, start: usize) -> Result<(), TtlFault>
    ensures { IsJudged reader.now pool.now start result }
{
    // A pool never holds more terms than its limit.
    let _ = pool.len();
    if let Some(fault) = reader.reading.fault() {
        return Err(TtlFault::At {
            code: code_of(fault.kind),
            at: fault.at as u64,
        });
    }
    match reader.reading.excess() {
        None => Ok(()),
        Some(Excess::Triples) => Err(TtlFault::At {
            code: TEXT_TRIPLES,
            at: start as u64,
        }),
        Some(Excess::Terms) => Err(TtlFault::At {
            code: TEXT_TERMS,
            at: start as u64,
        }),
    }
}
