//! What is kept of a graph while its shapes are declared, so that nothing is read twice.
use crate::{Cell, PathReading};
use id_list::IdList;
use indexmap::{IndexMap, IndexSet};
use shx_term::Id;

/// What was read of nodes, by their numbers: what they are in lists, and the lists that they head.
pub(crate) struct ReadLists {
    pub(crate) cells: IndexMap<Id, Cell>,
    pub(crate) lists: IndexMap<Id, Option<IdList>>,
}

// A derived drop is no call: each place where one ends would split into one path for each of its parts.
impl Drop for ReadLists {
    fn drop(self) {
        let ReadLists {
            cells: _cells,
            lists: _lists,
        } = self;
    }
}

/// The same, with the paths that were read, and the instances of the two classes that declarations tell of.
pub(crate) struct KnownGraph {
    pub(crate) readings: ReadLists,
    pub(crate) paths: IndexMap<Id, PathReading>,
    pub(crate) node_shapes: IndexSet<Id>,
    pub(crate) classes: IndexSet<Id>,
}

// A derived drop is no call: each place where one ends would split into one path for each of its parts.
impl Drop for KnownGraph {
    fn drop(self) {
        let KnownGraph {
            readings: _readings,
            paths: _paths,
            node_shapes: _node_shapes,
            classes: _classes,
        } = self;
    }
}
