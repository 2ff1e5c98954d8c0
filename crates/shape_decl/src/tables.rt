//! The predicates by which a node is a shape (SHACL, section 2), each table in the order of the vocabulary.
ghost use Rattle.std.specs.Prelude.{◌≡◌};
ghost use Rattle.shape_decl.specs.Shapes.{shape_classes};
ghost use Rattle.shape_decl.specs.Tables.{subject_predicates, shape_predicates};
ghost use Rattle.shape_decl.specs.Tables.{shape_list_predicates, list_predicates};

use shx_term::Id;
use shx_term::vocabulary::*;

const SHAPE_CLASSES: [Id; 2] = [SH_NODE_SHAPE, SH_PROPERTY_SHAPE];

const SUBJECT_PREDICATES: [Id; 37] = [
    SH_TARGET_NODE,
    SH_TARGET_CLASS,
    SH_TARGET_SUBJECTS_OF,
    SH_TARGET_OBJECTS_OF,
    SH_CLASS,
    SH_DATATYPE,
    SH_NODE_KIND,
    SH_MIN_COUNT,
    SH_MAX_COUNT,
    SH_MIN_EXCLUSIVE,
    SH_MIN_INCLUSIVE,
    SH_MAX_EXCLUSIVE,
    SH_MAX_INCLUSIVE,
    SH_MIN_LENGTH,
    SH_MAX_LENGTH,
    SH_PATTERN,
    SH_FLAGS,
    SH_LANGUAGE_IN,
    SH_UNIQUE_LANG,
    SH_EQUALS,
    SH_DISJOINT,
    SH_LESS_THAN,
    SH_LESS_THAN_OR_EQUALS,
    SH_NOT,
    SH_AND,
    SH_OR,
    SH_XONE,
    SH_NODE,
    SH_PROPERTY,
    SH_QUALIFIED_VALUE_SHAPE,
    SH_QUALIFIED_MIN_COUNT,
    SH_QUALIFIED_MAX_COUNT,
    SH_QUALIFIED_VALUE_SHAPES_DISJOINT,
    SH_CLOSED,
    SH_IGNORED_PROPERTIES,
    SH_HAS_VALUE,
    SH_IN,
];

const SHAPE_PREDICATES: [Id; 4] = [SH_NOT, SH_NODE, SH_PROPERTY, SH_QUALIFIED_VALUE_SHAPE];

const SHAPE_LIST_PREDICATES: [Id; 3] = [SH_AND, SH_OR, SH_XONE];

const LIST_PREDICATES: [Id; 6] = [
    SH_LANGUAGE_IN,
    SH_AND,
    SH_OR,
    SH_XONE,
    SH_IGNORED_PROPERTIES,
    SH_IN,
];

/// The classes of which shapes are instances.
pub(crate) fn shape_classes() -> &'static [Id]
    ensures { result.now ≡ shape_classes }
{
    &SHAPE_CLASSES
}

/// The predicates whose subjects are shapes: those of targets, and the parameters of constraint components.
pub(crate) fn subject_predicates() -> &'static [Id]
    ensures { result.now ≡ subject_predicates }
{
    &SUBJECT_PREDICATES
}

/// The parameters whose values are shapes.
pub(crate) fn shape_predicates() -> &'static [Id]
    ensures { result.now ≡ shape_predicates }
{
    &SHAPE_PREDICATES
}

/// The parameters whose values are lists of shapes.
pub(crate) fn shape_list_predicates() -> &'static [Id]
    ensures { result.now ≡ shape_list_predicates }
{
    &SHAPE_LIST_PREDICATES
}

/// The parameters whose values are lists.
pub(crate) fn list_predicates() -> &'static [Id]
    ensures { result.now ≡ list_predicates }
{
    &LIST_PREDICATES
}
