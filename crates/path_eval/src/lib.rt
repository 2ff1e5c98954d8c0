//! Property paths (SHACL, section 2.3.1): which nodes a path leads to, and what is read to find them.
//!
//! | file | what it holds |
//! |---|---|
//! | `path.rt` | `Path`: the seven forms of a path |
//! | `path_equality.rt` | paths that say the same are equal |
//! | `path_values.rt` | `values`: the nodes that a path leads to from a node, and the keys that were read |
//! | `instance_values.rt` | SHACL instances: the classes of a node, the instances of a class, and the test |
//! | `superclasses.rt` | `Superclasses`: the classes above a class, found once, and the test by them |
//! | `last_node.rt` | the node of many types that is asked about again and again, whose classes are kept |
//! | `wider.rt` | the search for what is above a class, which takes over what is known of others |
//! | `direction.rt` | `Direction`: a path is followed forward or backward |
//! | `edge.rt` | `Edge` and `State`: places of a path, and nodes at them |
//! | `lay.rt` | a path laid as edges between two places |
//! | `course.rt` | a whole path, laid part behind part: a closure ends at its own place |
//! | `laid_edges.rt`, `laid_path.rt` | `LaidPath`: a path that is laid once, and shared by its copies |
//! | `rows.rt` | edges by the places that they begin at |
//! | `search.rt` | the search over states, and one step along a predicate |
//! | `held.rt` | `Held`: a set of states, a few side by side and more by hash |
//! | `states.rt` | `States`: the states that a search has met |
//! | `laws.rt` | what a path relates and reads, and that nothing else matters to it |
//! | `instance_laws.rt` | what an instance is, and what it depends on |
//! | `place_laws.rt` | places lead where paths do, and few states are reached |
//!
//! It stands on `graph_view` for what a graph gives and what it notes as read. Start with `path_values.rt`
//! and `instance_values.rt`; `specs/Relation.antt` says what a path relates and reads, `specs/Way.antt` the
//! same as lists. `specs/inner` has the words of contracts that no caller meets.
#![tactic(auto)]

mod course;
mod direction;
mod edge;
mod held;
mod instance_laws;
mod instance_values;
mod laid_edges;
mod laid_path;
mod last_node;
mod laws;
mod lay;
mod path;
mod path_equality;
mod path_values;
mod place_laws;
mod rows;
mod search;
mod states;
mod superclasses;
mod wider;

pub use direction::Direction;
pub use instance_laws::{
    a_type_tells_of_its_node_alone, instances_are_told, instances_depend_on_their_reads,
};
pub use instance_values::{classes, instances, instances_unsorted, is_instance};
pub use laid_path::LaidPath;
pub use laws::{edits_beside_a_path, paths_depend_on_their_reads, paths_lead_to_what_they_relate};
pub use path::Path;
pub use path_equality::equal_paths_have_one_route;
pub use path_values::values;
pub use place_laws::{few_states_are_reached, places_lead_where_paths_do};
pub use superclasses::Superclasses;
