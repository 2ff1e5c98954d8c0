//! The literals of tokens, for whoever keeps no state.
ghost use Rattle.std.specs.Prelude.{◌≡◌, drop, IfOk};
ghost use Rattle.shx_term.specs.Spelling.{xsd_string};
ghost use Rattle.ttl_tokens.specs.declared.token.TokenKind.TheVariants.{LangTag};
ghost use Rattle.ttl_tokens.specs.Unescaped.{IsGiven, token_text as text_of};
ghost use Rattle.ttl_meaning.specs.inner.Meant.{IsMeant};
ghost use Rattle.ttl_meaning.specs.Terms.{datatype_of as kind_datatype, judged as judged_term, said};
ghost use Rattle.ttl_meaning.specs.Terms.{tagged as tagged_literal, typed as typed_literal};

use crate::fault::NoTerm;
use crate::terms::{datatype_of, judged, string_datatype, tag_text, tagged, token_text, typed};
use shx_term::{IriText, Literal, Memory, Term};
use std::alloc::Global;
use ttl_tokens::{Token, unescape};

/// The literal of an `INTEGER`, a `DECIMAL`, a `DOUBLE`, `true` or `false`. It takes time and memory linear
/// in the token, as each of the others does in its tokens.
pub fn bare_literal(alloc: Global, text: &str, token: &Token) -> Result<Term, NoTerm>
    requires { IsGiven text.now token.now }
    ensures { IsMeant (judged_term
        (typed_literal (text_of text.now token.now) (kind_datatype token.now.kind))) result }
{
    Ok(judged(bare(alloc, text, token)?)?)
}

/// A string with neither tag nor datatype.
pub fn plain_string(alloc: Global, text: &str, token: &Token) -> Result<Term, NoTerm>
    requires { IsGiven text.now token.now }
    ensures { IsMeant (judged_term (typed_literal (said text.now token.now) xsd_string)) result }
{
    let datatype = IriText::from_str(alloc, string_datatype())?;
    typed_string(alloc, text, token, datatype)
}

/// A string with its datatype.
pub fn typed_string(
    alloc: Global,
    text: &str,
    token: &Token,
    datatype: IriText,
) -> Result<Term, NoTerm>
    requires { IsGiven text.now token.now }
    ensures { IsMeant (judged_term (typed_literal (said text.now token.now) datatype)) result }
{
    let lexical = unescape(alloc, text, token)?;
    Ok(judged(typed(lexical, datatype))?)
}

/// A string with its `LANGTAG`, which is kept in small letters.
pub fn tagged_string(alloc: Global, text: &str, token: &Token, tag: &Token) -> Result<Term, NoTerm>
    requires given { IsGiven text.now token.now }
    requires tag { IsGiven text.now tag.now }
    requires kind { tag.now.kind ≡ LangTag }
    ensures { IsMeant (judged_term
        (tagged_literal (said text.now token.now) (drop 1 (text_of text.now tag.now)))) result }
{
    let lexical = unescape(alloc, text, token)?;
    let literal = tagged(alloc, lexical, tag_text(text, tag))?;
    Ok(judged(literal)?)
}

// A literal that is written without quotes, whether it has a fault or not.
pub(crate) fn bare(alloc: Global, text: &str, token: &Token) -> Result<Literal, Memory>
    requires { IsGiven text.now token.now }
    ensures { IfOk result (λ literal.
        literal ≡ typed_literal (text_of text.now token.now) (kind_datatype token.now.kind)) }
{
    let lexical = String::from_str(alloc, token_text(text, token))?;
    let datatype = IriText::from_str(alloc, datatype_of(token.kind))?;
    Ok(typed(lexical, datatype))
}
