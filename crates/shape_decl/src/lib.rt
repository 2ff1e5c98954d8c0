//! The declarations of a shapes graph (SHACL, section 2): its shapes, and what is stated of each.
//!
//! | file | what it holds |
//! |---|---|
//! | `collecting.rt` | `collect`: the declarations of a graph; `declare_shapes`, `sparql_count` |
//! | `declaration.rt` | `ShapeDecl`: a shape, with what is stated of it |
//! | `tables.rt` | the classes and predicates by which a node is a shape |
//! | `under.rt` | what a shape has under one predicate |
//! | `shapes.rt` | `find_shapes`: the nodes that are shapes, in term order |
//! | `declaring.rt` | the declaration of one node |
//! | `readings.rt`, `knowing.rt` | what is kept while shapes are declared, so that nothing is read twice |
//! | `lists.rt`, `cell.rt` | `read_list`: the members of a SHACL list, read from cell to cell |
//! | `paths.rt`, `path_reading.rt` | `read_path`: the path that a node is, or why none is read |
//! | `path_nodes.rt`, `path_fault.rt` | the nodes of a path, depth first, and the first of them at fault |
//! | `read_form.rt`, `form.rt` | which form of a path one node has |
//! | `laws.rt` | what is true of declarations: that the shapes are declared, and what stands in each |
//!
//! It stands on `graph_view` for what a graph gives, on `path_eval` for paths and SHACL instances, and on
//! `indexmap`. What is read is not noted: a shapes graph does not change. Start with `collecting.rt`;
//! `specs/Shapes.antt` says which nodes are shapes, `specs/Declarations.antt` what is stated of one,
//! `specs/Lists.antt` what a SHACL list is, `specs/Paths.antt` what a SHACL property path is, and
//! `specs/PathForms.antt` and `specs/PathReadings.antt` what is read as a path.
#![tactic(auto)]

mod cell;
mod collecting;
mod declaration;
mod declaring;
mod form;
mod knowing;
mod laws;
mod lists;
mod path_fault;
mod path_nodes;
mod path_reading;
mod paths;
mod read_form;
mod readings;
mod shapes;
mod tables;
mod under;

pub use cell::Cell;
pub use collecting::{collect, declare_shapes, sparql_count};
pub use declaration::{Declared, ListValue, ShapeDecl};
pub use laws::{
    declared_numbers_have_terms, lists_are_read, lists_stand_under_their_parameters,
    named_shapes_are_declared, paths_are_read, paths_nest_within_their_limit,
    shapes_are_declared_once, shapes_are_listed, values_stand_under_their_predicates,
};
pub use lists::read_list;
pub use path_fault::PathFault;
pub use path_reading::PathReading;
pub use paths::read_path;
pub use shapes::find_shapes;
