//! The term that begins at a token.
ghost use Rattle.std.specs.Prelude.{◌≡◌, IfOk, IfErr, Result};
ghost use Rattle.shx_term.specs.declared.term.Term.{Term as term};
ghost use Rattle.ttl_tokens.specs.Unescaped.{IsGiven};
ghost use Rattle.ttl_meaning.specs.declared.fault.TermFaultKind.{TermFaultKind};
ghost use Rattle.ttl_meaning.specs.InForce.{in_force};
ghost use Rattle.ttl_meaning.specs.inner.Meant.{IsMeant};
ghost use Rattle.ttl_meaning.specs.Terms.{iri_of};
ghost use Rattle.ttl_read.specs.Found.{Answers, IsFaultOf};
ghost use Rattle.ttl_read.specs.ReadTerm.{A, IsFaultFound, IsFound, IsNodeFound, IsStringFound};
ghost use Rattle.ttl_read.specs.ReadTerm.{found, found_iri, found_typed};

use crate::fault::{TtlFault, code_of};
use crate::groups::{is_bare_literal, is_iri, is_string};
use crate::suffix::{Suffix, behind_string};
use shx_term::Term;
use shx_term::fault_codes::{SYNTAX, UNKNOWN_BLANK};
use std::alloc::Global;
use ttl_meaning::{
    Document, NoNode, NoTerm, bare_literal, plain_string, tagged_string, typed_string,
};
use ttl_tokens::{Token, TokenKind};

/// What is found at a token.
#[derive(Debug, Drop)]
pub struct Reading {
    pub term: Term,
    /// The byte behind the term.
    pub end: usize,
}

/// The term that begins at a token, by the base, the prefixes and the blank nodes of a data text: the longest
/// IRI, blank node label or literal, where a label is the printed name of a blank node of that text. It takes
/// time and memory linear in what it reads, and to look up a prefix or a label, time logarithmic in their
/// number.
///
/// # Errors
///
/// A fault with its code and its byte; `Memory` where an allocation is refused.
pub fn read_term(
    alloc: Global,
    text: &str,
    token: &Token,
    document: &Document,
) -> Result<Reading, TtlFault>
    requires given { IsGiven text.now token.now }
    ensures found { IfOk result (λ reading.
        IsFound text.now token.now document.now (A reading.term reading.end)) }
    ensures refused { IfErr result (IsFaultFound text.now token.now document.now) }
{
    term_at(alloc, text, token, document)
}

// The same, with one clause.
fn term_at(
    alloc: Global,
    text: &str,
    token: &Token,
    document: &Document,
) -> Result<Reading, TtlFault>
    requires given { IsGiven text.now token.now }
    ensures { Answers (IsFound text.now token.now document.now) result }
{
    if is_iri(token.kind) {
        return iri(alloc, text, token, document);
    }
    if token.kind == TokenKind::BlankLabel {
        return node(alloc, text, token, document);
    }
    if is_bare_literal(token.kind) {
        return judged(token.start, token.end, bare_literal(alloc, text, token));
    }
    if is_string(token.kind) {
        return string(alloc, text, token, document);
    }
    Err(TtlFault::At {
        code: SYNTAX,
        at: token.start as u64,
    })
}

fn iri(alloc: Global, text: &str, token: &Token, document: &Document) -> Result<Reading, TtlFault>
    requires given { IsGiven text.now token.now }
    ensures { Answers (λ answer. answer ≡ found_iri token.now
        (iri_of text.now token.now (in_force document.now))) result }
{
    match document.iri_of(alloc, text, token) {
        Ok(iri) => Ok(Reading {
            term: Term::Iri(iri),
            end: token.end,
        }),
        Err(none) => Err(fault_of(none, token.start)),
    }
}

// A blank node of the document.
fn node(alloc: Global, text: &str, token: &Token, document: &Document) -> Result<Reading, TtlFault>
    requires given { IsGiven text.now token.now }
    ensures { Answers (IsNodeFound text.now token.now document.now) result }
{
    let at = token.start as u64;
    match document.node_of(alloc, text, token) {
        Ok(term) => Ok(Reading {
            term,
            end: token.end,
        }),
        Err(NoNode::Unknown) => Err(TtlFault::At {
            code: UNKNOWN_BLANK,
            at,
        }),
        Err(NoNode::Memory) => Err(TtlFault::Memory),
    }
}

// A string with what belongs to it.
fn string(
    alloc: Global,
    text: &str,
    token: &Token,
    document: &Document,
) -> Result<Reading, TtlFault>
    requires given { IsGiven text.now token.now }
    ensures { Answers (IsStringFound text.now token.now document.now) result }
{
    let start = token.start;
    match behind_string(text, token) {
        Suffix::Tag(tag) => judged(start, tag.end, tagged_string(alloc, text, token, &tag)),
        Suffix::Datatype(iri) => typed(alloc, text, token, &iri, document),
        Suffix::Nothing => judged(start, token.end, plain_string(alloc, text, token)),
    }
}

// A string with its datatype.
fn typed(
    alloc: Global,
    text: &str,
    token: &Token,
    iri: &Token,
    document: &Document,
) -> Result<Reading, TtlFault>
    requires given { IsGiven text.now token.now }
    requires iri { IsGiven text.now iri.now }
    ensures { Answers (λ answer. answer ≡ found_typed text.now token.now iri.now
        (iri_of text.now iri.now (in_force document.now))) result }
{
    match document.iri_of(alloc, text, iri) {
        Ok(datatype) => judged(
            token.start,
            iri.end,
            typed_string(alloc, text, token, datatype),
        ),
        Err(none) => Err(fault_of(none, iri.start)),
    }
}

// A term that goes from byte to byte; or its fault, where it begins.
fn judged(start: usize, end: usize, made: Result<Term, NoTerm>) -> Result<Reading, TtlFault>
    ensures { (meant : Result term TermFaultKind) → IsMeant meant made
        → Answers (λ answer. answer ≡ found start end meant) result }
{
    match made {
        Ok(term) => Ok(Reading { term, end }),
        Err(none) => Err(fault_of(none, start)),
    }
}

// Why there is no term at this byte.
fn fault_of(none: NoTerm, at: usize) -> TtlFault
    ensures { IsFaultOf none at result }
{
    match none {
        NoTerm::Fault(kind) => TtlFault::At {
            code: code_of(kind),
            at: at as u64,
        },
        NoTerm::Memory => TtlFault::Memory,
    }
}
