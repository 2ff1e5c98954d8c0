//! The names of components and of severities.
ghost use Rattle.std.specs.Prelude.{◌≡◌, slice_get};
ghost use Rattle.std.specs.Option.{option_copied};
ghost use Rattle.report_write.specs.ResultNames.{component_name, severity_text, severity_word, word_of_iri};

use comp_core::Kind;
use comp_core::kinds::*;
use shx_term::{Id, Pieces, Pool, Term, write_term};

/// The name of a component, empty where the number is that of none.
pub(crate) fn component_name(kind: Kind) -> &'static str
    ensures { result.now ≡ component_name kind }
{
    match kind {
        CLASS => "Class",
        DATATYPE => "Datatype",
        NODE_KIND => "NodeKind",
        MIN_COUNT => "MinCount",
        MAX_COUNT => "MaxCount",
        MIN_EXCLUSIVE => "MinExclusive",
        MIN_INCLUSIVE => "MinInclusive",
        MAX_EXCLUSIVE => "MaxExclusive",
        MAX_INCLUSIVE => "MaxInclusive",
        MIN_LENGTH => "MinLength",
        MAX_LENGTH => "MaxLength",
        PATTERN => "Pattern",
        LANGUAGE_IN => "LanguageIn",
        UNIQUE_LANG => "UniqueLang",
        EQUALS => "Equals",
        DISJOINT => "Disjoint",
        LESS_THAN => "LessThan",
        LESS_THAN_OR_EQUALS => "LessThanOrEquals",
        NOT => "Not",
        AND => "And",
        OR => "Or",
        XONE => "Xone",
        NODE => "Node",
        PROPERTY => "Property",
        QUALIFIED_MIN_COUNT => "QualifiedMinCount",
        QUALIFIED_MAX_COUNT => "QualifiedMaxCount",
        CLOSED => "Closed",
        HAS_VALUE => "HasValue",
        IN => "In",
        _ => "",
    }
}

/// Adds a severity: a word for the three of SHACL, and else the spelling of the term.
pub(crate) fn add_severity<W: Pieces>(severity: Id, pool: &Pool, out: &mut W)
    ensures { W.added out.old out.new (severity_text (slice_get pool.now.terms severity)) }
{
    if severity >= pool.len() {
        return;
    }
    let term = pool.term(severity);
    match severity_word(term) {
        Some(word) => out.add(word.as_bytes()),
        None => write_term(term, out),
    }
}

// The word of one of the three severities.
fn severity_word(term: &Term) -> Option<&'static str>
    ensures { option_copied result ≡ severity_word term.now }
{
    match term {
        Term::Iri(iri) => word_of_iri(iri.as_str()),
        Term::Blank(_) => None,
        Term::Lit(_) => None,
    }
}

fn word_of_iri(iri: &str) -> Option<&'static str>
    ensures { option_copied result ≡ word_of_iri iri.now }
{
    match iri {
        "http://www.w3.org/ns/shacl#Violation" => Some("Violation"),
        "http://www.w3.org/ns/shacl#Warning" => Some("Warning"),
        "http://www.w3.org/ns/shacl#Info" => Some("Info"),
        _ => None,
    }
}
