use shx_term::Id;

/// What a node is in a SHACL list.
#[derive(Clone, Copy, Debug, PartialEq, Eq)]
pub enum Cell {
    /// The end: `rdf:nil`.
    End,
    /// A member, and the rest of the list.
    Link(Id, Id),
    Neither,
}
