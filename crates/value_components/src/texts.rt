//! The texts of terms.
ghost use Rattle.std.specs.Prelude.{◌≡◌};
ghost use Rattle.value_components.specs.Texts.{text_of};
ghost use Rattle.value_components.specs.inner.Told.{told};

use shx_term::Term;

/// The text of an IRI, or the lexical form of a literal; a blank node has none. It takes no memory.
pub(crate) fn text_of<'a>(term: &'a Term) -> Option<&'a str>
    ensures { told result ≡ text_of term.now }
{
    match term {
        Term::Iri(iri) => Some(iri.as_str()),
        Term::Blank(_) => None,
        Term::Lit(literal) => Some(literal.lexical.as_str()),
    }
}
