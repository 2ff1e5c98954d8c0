use shx_term::Id;

/// Which nodes a shape is to be validated at (SHACL, section 2.1.3).
#[derive(Clone, Copy, Debug, PartialEq, Eq)]
pub enum Target {
    /// One node.
    Node(Id),
    /// The SHACL instances of a class.
    Class(Id),
    /// The subjects of a predicate.
    SubjectsOf(Id),
    /// The objects of a predicate.
    ObjectsOf(Id),
}
