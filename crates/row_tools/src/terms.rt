ghost use Rattle.std.specs.Prelude.{◌≡◌, IfOk};

use crate::RowFault;
use shx_term::{BlankName, IriText, Label, Literal, LocalName, Memory, Scope, Term, Text, spell};
use std::alloc::Global;

const LANG_STRING: &str = "http://www.w3.org/1999/02/22-rdf-syntax-ns#langString";

pub fn text(alloc: Global, text: &str) -> Result<Text, Memory>
    ensures { IfOk result (λ made. made ≡ text.now) }
{
    Ok(Text::new(String::from_str(alloc, text)?))
}

pub fn iri_text(alloc: Global, iri: &str) -> Result<IriText, Memory>
    ensures { IfOk result (λ made. made ≡ iri.now) }
{
    Ok(IriText::new(String::from_str(alloc, iri)?))
}

pub fn iri(alloc: Global, iri: &str) -> Result<Term, Memory> {
    Ok(Term::Iri(iri_text(alloc, iri)?))
}

pub fn label(alloc: Global, label: &str) -> Result<Label, Memory>
    ensures { IfOk result (λ made. made ≡ label.now) }
{
    Ok(Label::new(String::from_str(alloc, label)?))
}

/// The blank node of a label.
pub fn labelled(alloc: Global, scope: Scope, name: &str) -> Result<Term, Memory> {
    let name = LocalName::Labelled(label(alloc, name)?);
    Ok(Term::Blank(BlankName { scope, name }))
}

/// The blank node without a label that has this number.
pub fn anonymous(scope: Scope, number: u32) -> Term {
    let name = LocalName::Anonymous(number);
    Term::Blank(BlankName { scope, name })
}

/// The literal of a datatype, which is given by its IRI.
pub fn literal(alloc: Global, lexical: &str, datatype: &str) -> Result<Literal, Memory> {
    Ok(Literal {
        lexical: text(alloc, lexical)?,
        datatype: iri_text(alloc, datatype)?,
        tag: None,
    })
}

/// The literal of a language tag.
pub fn tagged(alloc: Global, lexical: &str, tag: &str) -> Result<Literal, Memory> {
    Ok(Literal {
        lexical: text(alloc, lexical)?,
        datatype: iri_text(alloc, LANG_STRING)?,
        tag: Some(text(alloc, tag)?),
    })
}

/// How a term is written.
pub fn spelled(alloc: Global, term: &Term) -> Result<String, RowFault> {
    let mut out = Vec::new(alloc);
    spell(term, &mut out)?;
    match String::from_utf8(out) {
        Ok(text) => Ok(text),
        Err(_) => Err(RowFault::Unread),
    }
}
