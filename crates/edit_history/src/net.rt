use crate::TermTriples;

/// What a change added to a graph, and what it removed from it.
#[derive(Drop)]
pub struct Net {
    pub added: TermTriples,
    pub removed: TermTriples,
}
