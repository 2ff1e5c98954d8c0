use crate::PathReading;
use id_list::IdList;
use shx_term::Id;

/// A shape, with what the shapes graph states of it.
#[derive(Debug, Drop)]
pub struct ShapeDecl {
    pub node: Id,
    /// Whether it is a SHACL instance of `sh:NodeShape`.
    pub is_node_shape: bool,
    /// Whether it is a SHACL instance of `rdfs:Class`.
    pub is_class: bool,
    /// Each predicate of the vocabulary that it has, in the vocabulary's order.
    pub values: Vec<Declared>,
    /// Each value of a parameter that expects a list, in the same order.
    pub lists: Vec<ListValue>,
    /// The reading of its first value of `sh:path` in term order.
    pub path: Option<PathReading>,
}

/// The values of a predicate, in term order.
#[derive(Debug, Drop)]
pub struct Declared {
    pub predicate: Id,
    pub values: Vec<Id>,
}

/// A value that is expected to be a list.
#[derive(Debug, Drop)]
pub struct ListValue {
    pub head: Id,
    /// `None` where it is no SHACL list.
    pub members: Option<IdList>,
}
