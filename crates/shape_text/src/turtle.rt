//! What a text of Turtle states.
ghost use Rattle.std.specs.Prelude.{◌≡◌, ◌≤◌, length, IfOk, IfErr};
ghost use Rattle.iri_resolve.specs.Resolution.{IsAbsolute};
ghost use Rattle.graph_view.specs.Valid.{IsValidView};
ghost use Rattle.shape_text.specs.TextReadings.{IsKnownDocument, IsReadAs};
ghost use Rattle.shape_text.specs.Refusal.{IsQuiet, RefusesAs};
ghost use Rattle.shape_text.specs.Turtle.{StatesDocument, role_of, HasNoWide};

use crate::refusal::Refusal;
use crate::stop::Stop;
use report_write::Answer;
use shx_outside::Role;
use shx_term::{IriText, Limits, Pool, Scope};
use std::alloc::Global;
use ttl_read::{Document, TtlFault, read_document};

/// What a text states, over the numbers of its terms, which are entered into the pool; or why it is refused.
/// The text goes once it is read, so that it lies beside nothing that is made of it. It takes time linear in
/// the text, but for looking up terms by hash and prefixes by name.
pub fn read_turtle(
    alloc: Global,
    text: Vec<u8>,
    base: &IriText,
    scope: Scope,
    limits: &Limits,
    pool: &mut Pool,
) -> Result<Document, Refusal>
    requires absolute { IsAbsolute base.now }
    requires depth { limits.now.turtle_depth ≤ 128 }
    requires limit { pool.old.limit ≡ limits.now.terms }
    requires within { length text.items ≤ limits.now.text }
    ensures limit { pool.new.limit ≡ pool.old.limit }
    ensures states { IfOk result
        (StatesDocument limits.now base.now scope pool.old.terms text.items pool.new.terms) }
    ensures valid { HasNoWide pool.old.terms → IfOk result (λ document.
        IsValidView (record { terms = pool.new.terms; triples = document.triples.items })) }
    ensures known { IfOk result (λ document. IsKnownDocument limits.now.triples
        (record { terms = pool.new.terms; triples = document.triples.items })) }
    ensures refused { IfErr result
        (RefusesAs (role_of scope) (IsReadAs limits.now base.now scope pool.old.terms text.items)) }
    ensures cut { IfErr result IsQuiet }
{
    match read_document(alloc, &text, base, scope, limits, pool) {
        Ok(document) => Ok(document),
        Err(TtlFault::At { code, at }) => Err(Refusal::Text(Answer::TextFault {
            role: role_of(scope),
            code,
            at,
        })),
        Err(TtlFault::Memory) => Err(Refusal::Cut(Stop::Memory)),
    }
}

// What a text is read for whose blank nodes have this scope.
fn role_of(scope: Scope) -> Role
    ensures { result ≡ role_of scope }
{
    match scope {
        Scope::Data => Role::Data,
        Scope::Shapes => Role::Shapes,
    }
}
