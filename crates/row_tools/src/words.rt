use crate::{RowFault, anonymous, cut, iri, labelled, literal, number, tagged};
use shx_term::{IriText, Literal, Memory, Scope, Term, XSD_STRING};
use std::alloc::Global;

/// The term of a word.
///
/// | word | term |
/// |---|---|
/// | `<http://e/a>`, `e:a` | the IRI `http://e/a` |
/// | `rdf:type`, `rdfs:Class`, `sh:path`, `xsd:date` | an IRI in these namespaces |
/// | `data:x`, `shapes:x` | the blank node with this label |
/// | `data#7`, `shapes#7` | the blank node with this number |
/// | `'x'` | the literal `x` of xsd:string |
/// | `'7'^^integer`, `'7'^^http://e/t` | that of a datatype, by its name in XML Schema or by its IRI |
/// | `'x'@en` | that with a language tag |
pub fn term(alloc: Global, word: &str) -> Result<Term, RowFault> {
    if let Some(rest) = word.strip_prefix('\'') {
        return Ok(Term::Lit(literal_of(alloc, rest)?));
    }
    if let Some(rest) = word.strip_prefix('<') {
        return Ok(iri(alloc, before(rest, '>')?)?);
    }
    if let Some((scope, name)) = word.split_once(':') {
        return named(alloc, scope, name);
    }
    numbered(word)
}

fn before(text: &str, end: char) -> Result<&str, RowFault> {
    text.strip_suffix(end).ok_or(RowFault::Unread)
}

fn named(alloc: Global, front: &str, name: &str) -> Result<Term, RowFault> {
    match front {
        "data" => Ok(labelled(alloc, Scope::Data, name)?),
        "shapes" => Ok(labelled(alloc, Scope::Shapes, name)?),
        _ => prefixed(alloc, namespace(front)?, name),
    }
}

fn namespace(prefix: &str) -> Result<&'static str, RowFault> {
    match prefix {
        "e" => Ok("http://e/"),
        "rdf" => Ok("http://www.w3.org/1999/02/22-rdf-syntax-ns#"),
        "rdfs" => Ok("http://www.w3.org/2000/01/rdf-schema#"),
        "sh" => Ok("http://www.w3.org/ns/shacl#"),
        "xsd" => Ok("http://www.w3.org/2001/XMLSchema#"),
        _ => Err(RowFault::Unread),
    }
}

fn prefixed(alloc: Global, namespace: &str, name: &str) -> Result<Term, RowFault> {
    let iri = format!(in alloc; "{namespace}{name}")?;
    Ok(Term::Iri(IriText::new(iri)))
}

fn numbered(word: &str) -> Result<Term, RowFault> {
    let (scope, digits) = cut(word, "#")?;
    match scope {
        "data" => Ok(anonymous(Scope::Data, number(digits)?)),
        "shapes" => Ok(anonymous(Scope::Shapes, number(digits)?)),
        _ => Err(RowFault::Unread),
    }
}

// The literal of a word behind its first quote; the lexical form goes up to the last quote.
fn literal_of(alloc: Global, rest: &str) -> Result<Literal, RowFault> {
    let Some((lexical, kind)) = rest.rsplit_once('\'') else {
        return Err(RowFault::Unread);
    };
    if kind.is_empty() {
        return Ok(literal(alloc, lexical, XSD_STRING)?);
    }
    if let Some(tag) = kind.strip_prefix('@') {
        return Ok(tagged(alloc, lexical, tag)?);
    }
    match kind.strip_prefix("^^") {
        Some(datatype) => Ok(typed(alloc, lexical, datatype)?),
        None => Err(RowFault::Unread),
    }
}

fn typed(alloc: Global, lexical: &str, datatype: &str) -> Result<Literal, Memory> {
    if datatype.contains("://") {
        return literal(alloc, lexical, datatype);
    }
    let datatype = format!(in alloc; "http://www.w3.org/2001/XMLSchema#{datatype}")?;
    literal(alloc, lexical, datatype.as_str())
}
