ghost use Rattle.std.specs.Prelude.{◌≡◌, IfOk};

use crate::{IriText, Label, Memory, Text};
use std::alloc::Global;

/// A term of RDF (RDF 1.1 Concepts, section 3): an IRI, a blank node or a literal.
#[derive(Debug)]
pub enum Term {
    Iri(IriText),
    Blank(BlankName),
    Lit(Literal),
}

/// What a blank node is called: the text that it comes from, and its name there.
#[derive(Debug, Drop)]
pub struct BlankName {
    pub scope: Scope,
    pub name: LocalName,
}

/// The text that a blank node comes from. Blank nodes of two texts are never the same.
#[derive(Clone, Copy, Debug, PartialEq, Eq)]
pub enum Scope {
    Data,
    Shapes,
}

/// The name of a blank node in its text: a label that is written there, or a number in the order of the text,
/// from 1.
#[derive(Debug)]
pub enum LocalName {
    Labelled(Label),
    Anonymous(u32),
}

/// A literal (RDF 1.1 Concepts, section 3.3): its lexical form, its datatype, and for rdf:langString its
/// language tag.
#[derive(Debug)]
pub struct Literal {
    pub lexical: Text,
    pub datatype: IriText,
    pub tag: Option<Text>,
}

// A derived drop is no call: each place where a term ends would split into one path for each kind of term.
impl Drop for Term {
    fn drop(self) {
        match self {
            Term::Iri(_iri) => {}
            Term::Blank(_blank) => {}
            Term::Lit(_literal) => {}
        }
    }
}

impl Drop for Literal {
    fn drop(self) {
        let Literal {
            lexical: _lexical,
            datatype: _datatype,
            tag: _tag,
        } = self;
    }
}

impl Drop for LocalName {
    fn drop(self) {
        match self {
            LocalName::Labelled(_label) => {}
            LocalName::Anonymous(_number) => {}
        }
    }
}

impl Term {
    /// An equal term of its own.
    pub fn copy(&self, alloc: Global) -> Result<Term, Memory>
        ensures { IfOk result (λ copy. copy ≡ self.now) }
    {
        match self {
            Term::Iri(iri) => Ok(Term::Iri(iri.copy(alloc)?)),
            Term::Blank(blank) => Ok(Term::Blank(blank.copy(alloc)?)),
            Term::Lit(literal) => Ok(Term::Lit(literal.copy(alloc)?)),
        }
    }
}

impl BlankName {
    /// An equal name of its own.
    pub fn copy(&self, alloc: Global) -> Result<BlankName, Memory>
        ensures { IfOk result (λ copy. copy ≡ self.now) }
    {
        Ok(BlankName {
            scope: self.scope,
            name: self.name.copy(alloc)?,
        })
    }
}

impl LocalName {
    /// An equal name of its own.
    pub fn copy(&self, alloc: Global) -> Result<LocalName, Memory>
        ensures { IfOk result (λ copy. copy ≡ self.now) }
    {
        match self {
            LocalName::Labelled(label) => Ok(LocalName::Labelled(label.copy(alloc)?)),
            LocalName::Anonymous(number) => Ok(LocalName::Anonymous(*number)),
        }
    }
}

impl Literal {
    /// An equal literal of its own.
    pub fn copy(&self, alloc: Global) -> Result<Literal, Memory>
        ensures { IfOk result (λ copy. copy ≡ self.now) }
    {
        let tag = match &self.tag {
            Some(tag) => Some(tag.copy(alloc)?),
            None => None,
        };
        Ok(Literal {
            lexical: self.lexical.copy(alloc)?,
            datatype: self.datatype.copy(alloc)?,
            tag,
        })
    }
}
