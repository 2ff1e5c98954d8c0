//! What is asked of a value.

/// Of which kind a term is.
#[derive(Clone, Copy, Debug, PartialEq, Eq)]
pub enum ValueKind {
    Anything,
    Iri,
    IriOrLiteral,
    IriOrBlank,
    Literal,
    /// A literal of `xsd:string`.
    String,
    /// A literal of `xsd:string`, or one with a language tag.
    Message,
    /// A literal of `xsd:boolean` that is well typed.
    Boolean,
    /// A literal of `xsd:integer` that is well typed.
    Integer,
    /// One of the six values of `sh:nodeKind`.
    NodeKind,
}

/// What the values of a predicate are.
#[derive(Clone, Copy, Debug, PartialEq, Eq)]
pub enum Expected {
    /// Terms of a kind.
    Each(ValueKind),
    /// Lists, whose members are of a kind.
    Lists(ValueKind),
}
