//! The terms that are made.
ghost use Rattle.std.specs.Prelude.{◌≡◌, drop, string_bytes, IfOk};
ghost use Rattle.shx_term.specs.declared.term.Term.TheVariants.{Blank};
ghost use Rattle.shx_term.specs.ValidTriples.{IsNotWide};
ghost use Rattle.shx_term.specs.Spelling.{xsd_string};
ghost use Rattle.ttl_tokens.specs.declared.token.TokenKind.TheVariants.{LangTag};
ghost use Rattle.ttl_tokens.specs.Unescaped.{IsGiven, token_text as text_of};
ghost use Rattle.ttl_meaning.specs.Terms.{anonymous as anonymous_node, judged as judged_term, prefix_of};
ghost use Rattle.ttl_meaning.specs.Terms.{labelled as labelled_node, datatype_of as kind_datatype};
ghost use Rattle.ttl_meaning.specs.Terms.{tagged as tagged_literal, typed as typed_literal};

use crate::TermFaultKind;
use shx_term::{
    BlankName, IriText, Label, Literal, LocalName, Memory, Scope, Term, Text, XSD_STRING,
};
use std::alloc::Global;
use ttl_tokens::{Token, TokenKind, cut_at};
use value_space::{is_float, wide};

const LANG_STRING: &str = "http://www.w3.org/1999/02/22-rdf-syntax-ns#langString";

const INTEGER: &str = "http://www.w3.org/2001/XMLSchema#integer";

const DECIMAL: &str = "http://www.w3.org/2001/XMLSchema#decimal";

const DOUBLE: &str = "http://www.w3.org/2001/XMLSchema#double";

const BOOLEAN: &str = "http://www.w3.org/2001/XMLSchema#boolean";

pub(crate) fn anonymous(scope: Scope, number: u32) -> Term
    ensures { result ≡ Blank (anonymous_node scope number) }
{
    Term::Blank(BlankName {
        scope,
        name: LocalName::Anonymous(number),
    })
}

pub(crate) fn labelled(alloc: Global, scope: Scope, label: &str) -> Result<Term, Memory>
    ensures { IfOk result (λ term. term ≡ Blank (labelled_node scope label.now)) }
{
    let label = Label::new(String::from_str(alloc, label)?);
    Ok(Term::Blank(BlankName {
        scope,
        name: LocalName::Labelled(label),
    }))
}

// A literal without tag.
pub(crate) fn typed(lexical: String, datatype: IriText) -> Literal
    ensures { result ≡ typed_literal (string_bytes lexical) datatype }
{
    Literal {
        lexical: Text::new(lexical),
        datatype,
        tag: None,
    }
}

// A string with a language tag.
pub(crate) fn tagged(alloc: Global, lexical: String, tag: &str) -> Result<Literal, Memory>
    ensures { IfOk result (λ literal. literal ≡ tagged_literal (string_bytes lexical) tag.now) }
{
    let mut tag = String::from_str(alloc, tag)?;
    tag.make_ascii_lowercase();
    Ok(Literal {
        lexical: Text::new(lexical),
        datatype: IriText::from_str(alloc, LANG_STRING)?,
        tag: Some(Text::new(tag)),
    })
}

// A literal as a term, unless it has a fault.
pub(crate) fn judged(literal: Literal) -> Result<Term, TermFaultKind>
    ensures judged { result ≡ judged_term literal }
    ensures narrow { IfOk result IsNotWide }
{
    if is_float(&literal) {
        return Err(TermFaultKind::FloatLiteral);
    }
    if wide(&literal) {
        return Err(TermFaultKind::WideValue);
    }
    Ok(Term::Lit(literal))
}

// The datatype of a literal that is written without quotes.
pub(crate) fn datatype_of(kind: TokenKind) -> &'static str
    ensures { result.now ≡ kind_datatype kind }
{
    match kind {
        TokenKind::Integer => INTEGER,
        TokenKind::Decimal => DECIMAL,
        TokenKind::Double => DOUBLE,
        _ => BOOLEAN,
    }
}

// The datatype of a string without more.
pub(crate) fn string_datatype() -> &'static str
    ensures { result.now ≡ xsd_string }
{
    XSD_STRING
}

// The text of a token.
pub(crate) fn token_text<'a>(text: &'a str, token: &Token) -> &'a str
    requires { IsGiven text.now token.now }
    ensures { result.now ≡ text_of text.now token.now }
{
    &text[token.start..token.end]
}

// The text of a language tag, behind its `@`.
pub(crate) fn tag_text<'a>(text: &'a str, tag: &Token) -> &'a str
    requires given { IsGiven text.now tag.now }
    requires kind { tag.now.kind ≡ LangTag }
    ensures { result.now ≡ drop 1 (text_of text.now tag.now) }
{
    &token_text(text, tag)[1..]
}

// The text before the colon of a prefixed name.
pub(crate) fn prefix_text<'a>(text: &'a str, token: &Token) -> &'a str
    requires { IsGiven text.now token.now }
    ensures { result.now ≡ prefix_of text.now token.now }
{
    let name = token_text(text, token);
    match cut_at(name, b':') {
        Some((prefix, _)) => prefix,
        None => name,
    }
}
