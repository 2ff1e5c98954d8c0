//! The tables, by hand from SHACL. A block is a text in Turtle, which states shapes and data, and then
//! questions, each a line with what is due and, behind a bar, the keys that are read.
pub(super) mod components;
pub(super) mod orders;
pub(super) mod shapes;
pub(super) mod targets;
