mod cells;
mod paths;
mod questions;
mod rows;
mod superclasses;
