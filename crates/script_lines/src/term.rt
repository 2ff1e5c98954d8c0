//! The terms of a line.
ghost use Rattle.std.specs.Prelude.{◌≡◌};
ghost use Rattle.ttl_tokens.specs.Unescaped.{IsGiven};
ghost use Rattle.ttl_read.specs.ReadTerm.{IsFound};
ghost use Rattle.script_lines.specs.inner.Parts.{IsTermRead};
ghost use Rattle.script_lines.specs.Lines.{IsPredicateFound, IsShapeFound, line_code};

use crate::LineFault;
use shx_term::fault_codes::{
    BAD_IRI, FLOAT_LITERAL, LINE_FLOAT, LINE_IRI, LINE_PREFIX, LINE_WIDE, UNKNOWN_BLANK,
    UNKNOWN_PREFIX, WIDE_VALUE,
};
use shx_term::{IriText, Term};
use std::alloc::Global;
use ttl_meaning::{NoNode, shapes_node};
use ttl_read::{Document, Reading, TtlFault, read_term};
use ttl_tokens::{Token, TokenKind};

const RDF_TYPE: &str = "http://www.w3.org/1999/02/22-rdf-syntax-ns#type";

/// The predicate that begins at a token: the word `a` is rdf:type.
pub(crate) fn predicate_at(
    alloc: Global,
    line: &str,
    token: &Token,
    document: &Document,
) -> Result<Term, LineFault>
    requires { IsGiven line.now token.now }
    ensures { IsTermRead (IsPredicateFound line.now token.now document.now) result }
{
    if token.kind == TokenKind::WordA {
        return Ok(Term::Iri(IriText::new(String::from_str(alloc, RDF_TYPE)?)));
    }
    term_at(alloc, line, token, document)
}

/// The shape that begins at a token: an IRI, or a blank node that a shapes text may have.
pub(crate) fn shape_at(
    alloc: Global,
    line: &str,
    token: &Token,
    document: &Document,
) -> Result<Term, LineFault>
    requires { IsGiven line.now token.now }
    ensures { IsTermRead (IsShapeFound line.now token.now document.now) result }
{
    if token.kind != TokenKind::BlankLabel {
        return term_at(alloc, line, token, document);
    }
    match shapes_node(alloc, &line[token.start..token.end]) {
        Ok(shape) => Ok(shape),
        Err(NoNode::Unknown) => Err(LineFault::of_term(UNKNOWN_BLANK, token.start as u64)),
        Err(NoNode::Memory) => Err(LineFault::Memory),
    }
}

/// The term that begins at a token.
pub(crate) fn term_at(
    alloc: Global,
    line: &str,
    token: &Token,
    document: &Document,
) -> Result<Term, LineFault>
    requires { IsGiven line.now token.now }
    ensures { IsTermRead (IsFound line.now token.now document.now) result }
{
    match read_term(alloc, line, token, document) {
        Ok(reading) => {
            let Reading { term, .. } = reading;
            Ok(term)
        }
        Err(TtlFault::At { code, at }) => Err(LineFault::of_term(line_code(code), at)),
        Err(TtlFault::Memory) => Err(LineFault::Memory),
    }
}

// The code that a term's fault has in a line.
fn line_code(code: u32) -> u32
    ensures { result ≡ line_code code }
{
    match code {
        UNKNOWN_PREFIX => LINE_PREFIX,
        BAD_IRI => LINE_IRI,
        FLOAT_LITERAL => LINE_FLOAT,
        WIDE_VALUE => LINE_WIDE,
        _ => code,
    }
}
