ghost use Rattle.std.specs.Prelude.{◌≡◌, ◌≤◌, length, map, IfOk, OnOk};
ghost use Rattle.std.specs.List.{enumerate_from};
ghost use Rattle.shx_term.specs.declared.term.Term.TheVariants.{Iri};
ghost use Rattle.shx_term.specs.Pool.{with_terms};
ghost use Rattle.shx_term.specs.Vocabulary.{vocabulary, VocabularyStands};

use crate::{Id, IriText, Memory, Pool, Term, TermKeys};
use indexmap::IndexSet;
use std::alloc::Global;

// The numbers of the vocabulary's terms, the same in every pool.

/// `rdf:type`
pub const RDF_TYPE: Id = 0;
/// `rdf:first`
pub const RDF_FIRST: Id = 1;
/// `rdf:rest`
pub const RDF_REST: Id = 2;
/// `rdf:nil`
pub const RDF_NIL: Id = 3;
/// `rdfs:subClassOf`
pub const RDFS_SUB_CLASS_OF: Id = 4;
/// `rdfs:Class`
pub const RDFS_CLASS: Id = 5;
/// `sh:NodeShape`
pub const SH_NODE_SHAPE: Id = 6;
/// `sh:PropertyShape`
pub const SH_PROPERTY_SHAPE: Id = 7;
/// `sh:path`
pub const SH_PATH: Id = 8;
/// `sh:inversePath`
pub const SH_INVERSE_PATH: Id = 9;
/// `sh:alternativePath`
pub const SH_ALTERNATIVE_PATH: Id = 10;
/// `sh:zeroOrMorePath`
pub const SH_ZERO_OR_MORE_PATH: Id = 11;
/// `sh:oneOrMorePath`
pub const SH_ONE_OR_MORE_PATH: Id = 12;
/// `sh:zeroOrOnePath`
pub const SH_ZERO_OR_ONE_PATH: Id = 13;
/// `sh:targetNode`
pub const SH_TARGET_NODE: Id = 14;
/// `sh:targetClass`
pub const SH_TARGET_CLASS: Id = 15;
/// `sh:targetSubjectsOf`
pub const SH_TARGET_SUBJECTS_OF: Id = 16;
/// `sh:targetObjectsOf`
pub const SH_TARGET_OBJECTS_OF: Id = 17;
/// `sh:severity`
pub const SH_SEVERITY: Id = 18;
/// `sh:message`
pub const SH_MESSAGE: Id = 19;
/// `sh:deactivated`
pub const SH_DEACTIVATED: Id = 20;
/// `sh:Violation`
pub const SH_VIOLATION: Id = 21;
/// `sh:sparql`
pub const SH_SPARQL: Id = 22;
/// `sh:IRI`
pub const SH_IRI: Id = 23;
/// `sh:BlankNode`
pub const SH_BLANK_NODE: Id = 24;
/// `sh:Literal`
pub const SH_LITERAL: Id = 25;
/// `sh:BlankNodeOrIRI`
pub const SH_BLANK_NODE_OR_IRI: Id = 26;
/// `sh:BlankNodeOrLiteral`
pub const SH_BLANK_NODE_OR_LITERAL: Id = 27;
/// `sh:IRIOrLiteral`
pub const SH_IRI_OR_LITERAL: Id = 28;
/// `sh:class`
pub const SH_CLASS: Id = 29;
/// `sh:datatype`
pub const SH_DATATYPE: Id = 30;
/// `sh:nodeKind`
pub const SH_NODE_KIND: Id = 31;
/// `sh:minCount`
pub const SH_MIN_COUNT: Id = 32;
/// `sh:maxCount`
pub const SH_MAX_COUNT: Id = 33;
/// `sh:minExclusive`
pub const SH_MIN_EXCLUSIVE: Id = 34;
/// `sh:minInclusive`
pub const SH_MIN_INCLUSIVE: Id = 35;
/// `sh:maxExclusive`
pub const SH_MAX_EXCLUSIVE: Id = 36;
/// `sh:maxInclusive`
pub const SH_MAX_INCLUSIVE: Id = 37;
/// `sh:minLength`
pub const SH_MIN_LENGTH: Id = 38;
/// `sh:maxLength`
pub const SH_MAX_LENGTH: Id = 39;
/// `sh:pattern`
pub const SH_PATTERN: Id = 40;
/// `sh:flags`
pub const SH_FLAGS: Id = 41;
/// `sh:languageIn`
pub const SH_LANGUAGE_IN: Id = 42;
/// `sh:uniqueLang`
pub const SH_UNIQUE_LANG: Id = 43;
/// `sh:equals`
pub const SH_EQUALS: Id = 44;
/// `sh:disjoint`
pub const SH_DISJOINT: Id = 45;
/// `sh:lessThan`
pub const SH_LESS_THAN: Id = 46;
/// `sh:lessThanOrEquals`
pub const SH_LESS_THAN_OR_EQUALS: Id = 47;
/// `sh:not`
pub const SH_NOT: Id = 48;
/// `sh:and`
pub const SH_AND: Id = 49;
/// `sh:or`
pub const SH_OR: Id = 50;
/// `sh:xone`
pub const SH_XONE: Id = 51;
/// `sh:node`
pub const SH_NODE: Id = 52;
/// `sh:property`
pub const SH_PROPERTY: Id = 53;
/// `sh:qualifiedValueShape`
pub const SH_QUALIFIED_VALUE_SHAPE: Id = 54;
/// `sh:qualifiedMinCount`
pub const SH_QUALIFIED_MIN_COUNT: Id = 55;
/// `sh:qualifiedMaxCount`
pub const SH_QUALIFIED_MAX_COUNT: Id = 56;
/// `sh:qualifiedValueShapesDisjoint`
pub const SH_QUALIFIED_VALUE_SHAPES_DISJOINT: Id = 57;
/// `sh:closed`
pub const SH_CLOSED: Id = 58;
/// `sh:ignoredProperties`
pub const SH_IGNORED_PROPERTIES: Id = 59;
/// `sh:hasValue`
pub const SH_HAS_VALUE: Id = 60;
/// `sh:in`
pub const SH_IN: Id = 61;

/// How many terms the vocabulary has.
pub const VOCABULARY_LEN: u32 = 62;

/// Each number of the vocabulary with its IRI, in order. `vocabulary_rows` says what they are.
const VOCABULARY: [(Id, &str); 62] = [
    (RDF_TYPE, "http://www.w3.org/1999/02/22-rdf-syntax-ns#type"),
    (
        RDF_FIRST,
        "http://www.w3.org/1999/02/22-rdf-syntax-ns#first",
    ),
    (RDF_REST, "http://www.w3.org/1999/02/22-rdf-syntax-ns#rest"),
    (RDF_NIL, "http://www.w3.org/1999/02/22-rdf-syntax-ns#nil"),
    (
        RDFS_SUB_CLASS_OF,
        "http://www.w3.org/2000/01/rdf-schema#subClassOf",
    ),
    (RDFS_CLASS, "http://www.w3.org/2000/01/rdf-schema#Class"),
    (SH_NODE_SHAPE, "http://www.w3.org/ns/shacl#NodeShape"),
    (
        SH_PROPERTY_SHAPE,
        "http://www.w3.org/ns/shacl#PropertyShape",
    ),
    (SH_PATH, "http://www.w3.org/ns/shacl#path"),
    (SH_INVERSE_PATH, "http://www.w3.org/ns/shacl#inversePath"),
    (
        SH_ALTERNATIVE_PATH,
        "http://www.w3.org/ns/shacl#alternativePath",
    ),
    (
        SH_ZERO_OR_MORE_PATH,
        "http://www.w3.org/ns/shacl#zeroOrMorePath",
    ),
    (
        SH_ONE_OR_MORE_PATH,
        "http://www.w3.org/ns/shacl#oneOrMorePath",
    ),
    (
        SH_ZERO_OR_ONE_PATH,
        "http://www.w3.org/ns/shacl#zeroOrOnePath",
    ),
    (SH_TARGET_NODE, "http://www.w3.org/ns/shacl#targetNode"),
    (SH_TARGET_CLASS, "http://www.w3.org/ns/shacl#targetClass"),
    (
        SH_TARGET_SUBJECTS_OF,
        "http://www.w3.org/ns/shacl#targetSubjectsOf",
    ),
    (
        SH_TARGET_OBJECTS_OF,
        "http://www.w3.org/ns/shacl#targetObjectsOf",
    ),
    (SH_SEVERITY, "http://www.w3.org/ns/shacl#severity"),
    (SH_MESSAGE, "http://www.w3.org/ns/shacl#message"),
    (SH_DEACTIVATED, "http://www.w3.org/ns/shacl#deactivated"),
    (SH_VIOLATION, "http://www.w3.org/ns/shacl#Violation"),
    (SH_SPARQL, "http://www.w3.org/ns/shacl#sparql"),
    (SH_IRI, "http://www.w3.org/ns/shacl#IRI"),
    (SH_BLANK_NODE, "http://www.w3.org/ns/shacl#BlankNode"),
    (SH_LITERAL, "http://www.w3.org/ns/shacl#Literal"),
    (
        SH_BLANK_NODE_OR_IRI,
        "http://www.w3.org/ns/shacl#BlankNodeOrIRI",
    ),
    (
        SH_BLANK_NODE_OR_LITERAL,
        "http://www.w3.org/ns/shacl#BlankNodeOrLiteral",
    ),
    (SH_IRI_OR_LITERAL, "http://www.w3.org/ns/shacl#IRIOrLiteral"),
    (SH_CLASS, "http://www.w3.org/ns/shacl#class"),
    (SH_DATATYPE, "http://www.w3.org/ns/shacl#datatype"),
    (SH_NODE_KIND, "http://www.w3.org/ns/shacl#nodeKind"),
    (SH_MIN_COUNT, "http://www.w3.org/ns/shacl#minCount"),
    (SH_MAX_COUNT, "http://www.w3.org/ns/shacl#maxCount"),
    (SH_MIN_EXCLUSIVE, "http://www.w3.org/ns/shacl#minExclusive"),
    (SH_MIN_INCLUSIVE, "http://www.w3.org/ns/shacl#minInclusive"),
    (SH_MAX_EXCLUSIVE, "http://www.w3.org/ns/shacl#maxExclusive"),
    (SH_MAX_INCLUSIVE, "http://www.w3.org/ns/shacl#maxInclusive"),
    (SH_MIN_LENGTH, "http://www.w3.org/ns/shacl#minLength"),
    (SH_MAX_LENGTH, "http://www.w3.org/ns/shacl#maxLength"),
    (SH_PATTERN, "http://www.w3.org/ns/shacl#pattern"),
    (SH_FLAGS, "http://www.w3.org/ns/shacl#flags"),
    (SH_LANGUAGE_IN, "http://www.w3.org/ns/shacl#languageIn"),
    (SH_UNIQUE_LANG, "http://www.w3.org/ns/shacl#uniqueLang"),
    (SH_EQUALS, "http://www.w3.org/ns/shacl#equals"),
    (SH_DISJOINT, "http://www.w3.org/ns/shacl#disjoint"),
    (SH_LESS_THAN, "http://www.w3.org/ns/shacl#lessThan"),
    (
        SH_LESS_THAN_OR_EQUALS,
        "http://www.w3.org/ns/shacl#lessThanOrEquals",
    ),
    (SH_NOT, "http://www.w3.org/ns/shacl#not"),
    (SH_AND, "http://www.w3.org/ns/shacl#and"),
    (SH_OR, "http://www.w3.org/ns/shacl#or"),
    (SH_XONE, "http://www.w3.org/ns/shacl#xone"),
    (SH_NODE, "http://www.w3.org/ns/shacl#node"),
    (SH_PROPERTY, "http://www.w3.org/ns/shacl#property"),
    (
        SH_QUALIFIED_VALUE_SHAPE,
        "http://www.w3.org/ns/shacl#qualifiedValueShape",
    ),
    (
        SH_QUALIFIED_MIN_COUNT,
        "http://www.w3.org/ns/shacl#qualifiedMinCount",
    ),
    (
        SH_QUALIFIED_MAX_COUNT,
        "http://www.w3.org/ns/shacl#qualifiedMaxCount",
    ),
    (
        SH_QUALIFIED_VALUE_SHAPES_DISJOINT,
        "http://www.w3.org/ns/shacl#qualifiedValueShapesDisjoint",
    ),
    (SH_CLOSED, "http://www.w3.org/ns/shacl#closed"),
    (
        SH_IGNORED_PROPERTIES,
        "http://www.w3.org/ns/shacl#ignoredProperties",
    ),
    (SH_HAS_VALUE, "http://www.w3.org/ns/shacl#hasValue"),
    (SH_IN, "http://www.w3.org/ns/shacl#in"),
];

/// The rows of the vocabulary: at each place that place, as its constant, and the IRI of the term there. A
/// pool begins with these terms and a number keeps its term, so each constant is the number of its IRI in
/// every pool. It takes no memory.
pub fn vocabulary_rows() -> &'static [(Id, &'static str)]
    ensures { map (λ row. (row.0, Iri row.1.now)) result.now ≡ enumerate_from 0 vocabulary }
{
    &VOCABULARY
}

/// How long the vocabulary is; and that each of its terms stands at its number wherever it comes first, as in
/// every pool.
pub fn vocabulary_stands()
    ensures count { length vocabulary ≡ VOCABULARY_LEN }
    ensures terms { VocabularyStands }
{}

impl Pool {
    /// A pool that holds the vocabulary, and at most `limit` terms in all. It looks terms up by the hash that
    /// `keys` gives, and nothing that it answers depends on that.
    pub fn with_vocabulary(alloc: Global, limit: u32, keys: TermKeys) -> Result<Pool, Memory>
        requires { 62 ≤ limit }
        ensures terms { IfOk result (λ pool. pool.terms ≡ vocabulary) }
        ensures limit { IfOk result (λ pool. pool.limit ≡ limit) }
    {
        let mut terms = IndexSet::with_hasher(alloc, keys);
        enter_iris(alloc, &mut terms, &VOCABULARY)?;
        Ok(Pool::from_terms(alloc, terms, limit))
    }
}

fn enter_iris(
    alloc: Global,
    terms: &mut IndexSet<Term, TermKeys>,
    rows: &[(Id, &str)],
) -> Result<(), Memory>
    ensures { OnOk result (terms.new.keys ≡ with_terms terms.old.keys (map (λ row. Iri row.1.now) rows.now)) }
{
    for (_, iri) in rows {
        let text = String::from_str(alloc, iri)?;
        terms.insert(Term::Iri(IriText::new(text)))?;
    }
    Ok(())
}
