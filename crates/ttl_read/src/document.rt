ghost use Rattle.std.specs.Prelude.{◌≡◌, ◌≤◌, length, IfOk, IfErr};
ghost use Rattle.std.specs.Str.{IsCharBoundary, IsUtf8};
ghost use Rattle.iri_resolve.specs.Resolution.{IsAbsolute};
ghost use Rattle.ttl_meaning.specs.inner.DocumentOf.{IsDocumentOf};
ghost use Rattle.ttl_meaning.specs.State.{State};
ghost use Rattle.ttl_read.specs.Documents.{first_byte, setting};
ghost use Rattle.ttl_read.specs.Stated.{FaultStands, HoldsBefore, HoldsRead, States};

use crate::fault::TtlFault;
use crate::reader::{Reader, Tokens};
use crate::statements::statements;
use shx_term::fault_codes::NOT_UTF8;
use shx_term::{IriText, Limits, Pool, Scope};
use std::alloc::Global;
use std::str;
use ttl_meaning::{Document, ReaderState};

/// What a text of Turtle states (Turtle 1.1). Its terms are entered into the pool, and the limit of terms is
/// the pool's. Behind a fault the pool holds, beside what it held before, the terms of all statements before
/// the one at fault, and no other. Of bytes that are not UTF-8 it holds none, since no statement is read.
/// Where memory is wanted it holds those of all statements that were read; how many these are depends on the
/// memory, so that the contract says no more than that they are the first ones.
///
/// Beside the check of UTF-8 and the undoing of escapes, each token is read once, but for those of a
/// statement that has no derivation, which are read once more: it takes time linear in the text, but for
/// looking up terms by hash and prefixes by name, and memory for what it gives alone. A base or a namespace
/// is written out at each reference or name that uses it, so that a long one costs its length as often as it
/// is used. Brackets nest as deep as the recursion goes.
///
/// # Errors
///
/// The fault of the text, with its code and its byte; a text has one at most. `Memory` where an allocation is
/// refused.
pub fn read_document(
    alloc: Global,
    text: &[u8],
    base: &IriText,
    scope: Scope,
    limits: &Limits,
    pool: &mut Pool,
) -> Result<Document, TtlFault>
    requires absolute { IsAbsolute base.now }
    requires depth { limits.now.turtle_depth ≤ 128 }
    ensures document { IfOk result (λ document.
        States (setting text.now limits.now pool.old) scope base.now document pool.new) }
    ensures fault { IfErr result (FaultStands (setting text.now limits.now pool.old) scope base.now) }
    ensures pool { HoldsRead (setting text.now limits.now pool.old) scope base.now pool.new }
    ensures before { IfErr result
        (HoldsBefore (setting text.now limits.now pool.old) scope base.now pool.new) }
    ensures limit { pool.new.limit ≡ pool.old.limit }
{
    match str::from_utf8(text) {
        Ok(text) => read_text(alloc, text, base, scope, limits, pool),
        Err(error) => Err(TtlFault::At {
            code: NOT_UTF8,
            at: error.valid_up_to() as u64,
        }),
    }
}

// The same of a text in UTF-8.
fn read_text(
    alloc: Global,
    text: &str,
    base: &IriText,
    scope: Scope,
    limits: &Limits,
    pool: &mut Pool,
) -> Result<Document, TtlFault>
    requires absolute { IsAbsolute base.now }
    ensures document { IfOk result (λ document.
        States (setting text.now limits.now pool.old) scope base.now document pool.new) }
    ensures fault { IfErr result (FaultStands (setting text.now limits.now pool.old) scope base.now) }
    ensures pool { HoldsRead (setting text.now limits.now pool.old) scope base.now pool.new }
    ensures before { IfErr result
        (HoldsBefore (setting text.now limits.now pool.old) scope base.now pool.new) }
    ensures limit { pool.new.limit ≡ pool.old.limit }
{
    // A pool never holds more terms than its limit.
    let _ = pool.len();
    let tokens = Tokens::at(text, first_byte(text));
    let reading = ReaderState::new(alloc, scope, base, limits.triples, pool)?;
    let mut reader = Reader { tokens, reading };
    statements(text, limits, &mut reader, pool)?;
    let Reader { reading, .. } = reader;
    Ok(reading.finish()?)
}

// The first byte behind a byte order mark.
fn first_byte(text: &str) -> usize
    ensures place { result ≡ first_byte text.now }
    ensures within { result ≤ length text.now }
    ensures boundary { IsCharBoundary text.now result }
{
    if text.starts_with('\u{feff}') { 3 } else { 0 }
}
