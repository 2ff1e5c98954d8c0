//! What rules look at beside the values of a predicate.
use crate::shapes::PropertyShapes;
use shape_decl::ShapeDecl;
use shx_term::Pool;

/// The terms, the shapes with a path, and a shape.
#[derive(Drop)]
pub(crate) struct Judged<'a> {
    pub(crate) pool: &'a Pool,
    pub(crate) property_shapes: &'a PropertyShapes<'a>,
    pub(crate) decl: &'a ShapeDecl,
}
