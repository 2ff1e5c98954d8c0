//! What is asked of the values of a predicate (SHACL, sections 2 to 4).
ghost use Rattle.std.specs.Prelude.{◌≡◌, map};
ghost use Rattle.shape_check.specs.Restrictions.{property_parameters, restriction_among, restriction_of};
ghost use Rattle.shape_check.specs.inner.Told.{told_restriction};

use crate::{Expected, ValueKind};
use shx_term::Id;
use shx_term::vocabulary::*;

/// What is asked of the values of some predicates.
#[derive(Clone, Copy)]
pub struct Restriction {
    pub predicates: &'static [Id],
    pub expected: Expected,
    /// Whether there may be one value only.
    pub one: bool,
}

const RESTRICTIONS: [Restriction; 16] = [
    Restriction {
        one: true,
        predicates: &[SH_PATH],
        expected: Expected::Each(ValueKind::Anything),
    },
    Restriction {
        one: false,
        predicates: &[SH_TARGET_NODE],
        expected: Expected::Each(ValueKind::IriOrLiteral),
    },
    Restriction {
        one: false,
        predicates: &[
            SH_TARGET_CLASS,
            SH_TARGET_SUBJECTS_OF,
            SH_TARGET_OBJECTS_OF,
            SH_CLASS,
            SH_EQUALS,
            SH_DISJOINT,
            SH_LESS_THAN,
            SH_LESS_THAN_OR_EQUALS,
        ],
        expected: Expected::Each(ValueKind::Iri),
    },
    Restriction {
        one: true,
        predicates: &[SH_SEVERITY, SH_DATATYPE],
        expected: Expected::Each(ValueKind::Iri),
    },
    Restriction {
        one: false,
        predicates: &[SH_MESSAGE],
        expected: Expected::Each(ValueKind::Message),
    },
    Restriction {
        one: true,
        predicates: &[
            SH_DEACTIVATED,
            SH_UNIQUE_LANG,
            SH_QUALIFIED_VALUE_SHAPES_DISJOINT,
            SH_CLOSED,
        ],
        expected: Expected::Each(ValueKind::Boolean),
    },
    Restriction {
        one: true,
        predicates: &[SH_NODE_KIND],
        expected: Expected::Each(ValueKind::NodeKind),
    },
    Restriction {
        one: true,
        predicates: &[
            SH_MIN_COUNT,
            SH_MAX_COUNT,
            SH_MIN_LENGTH,
            SH_MAX_LENGTH,
            SH_QUALIFIED_MIN_COUNT,
            SH_QUALIFIED_MAX_COUNT,
        ],
        expected: Expected::Each(ValueKind::Integer),
    },
    Restriction {
        one: true,
        predicates: &[
            SH_MIN_EXCLUSIVE,
            SH_MIN_INCLUSIVE,
            SH_MAX_EXCLUSIVE,
            SH_MAX_INCLUSIVE,
        ],
        expected: Expected::Each(ValueKind::Literal),
    },
    Restriction {
        one: true,
        predicates: &[SH_PATTERN, SH_FLAGS],
        expected: Expected::Each(ValueKind::String),
    },
    Restriction {
        one: true,
        predicates: &[SH_LANGUAGE_IN],
        expected: Expected::Lists(ValueKind::String),
    },
    Restriction {
        one: true,
        predicates: &[SH_IGNORED_PROPERTIES],
        expected: Expected::Lists(ValueKind::Iri),
    },
    Restriction {
        one: true,
        predicates: &[SH_IN],
        expected: Expected::Lists(ValueKind::Anything),
    },
    Restriction {
        one: false,
        predicates: &[SH_AND, SH_OR, SH_XONE],
        expected: Expected::Lists(ValueKind::IriOrBlank),
    },
    Restriction {
        one: false,
        predicates: &[SH_NOT, SH_NODE, SH_PROPERTY],
        expected: Expected::Each(ValueKind::IriOrBlank),
    },
    Restriction {
        one: true,
        predicates: &[SH_QUALIFIED_VALUE_SHAPE],
        expected: Expected::Each(ValueKind::IriOrBlank),
    },
];

const PROPERTY_PARAMETERS: [Id; 6] = [
    SH_MIN_COUNT,
    SH_MAX_COUNT,
    SH_UNIQUE_LANG,
    SH_LESS_THAN,
    SH_LESS_THAN_OR_EQUALS,
    SH_QUALIFIED_VALUE_SHAPE,
];

/// What is asked of the values of a predicate; of one that is in no row of the table, nothing.
#[tactic(auto, unfolding(crate::specs::Restrictions::restrictions))]
pub(crate) fn restriction_of(predicate: Id) -> Restriction
    ensures { told_restriction result ≡ restriction_of predicate }
{
    restriction_among(&RESTRICTIONS, predicate)
}

// What the first row asks that names the predicate.
fn restriction_among(rows: &[Restriction], predicate: Id) -> Restriction
    ensures { told_restriction result ≡ restriction_among (map told_restriction rows.now) predicate }
{
    for row in rows {
        if row.predicates.contains(&predicate) {
            return *row;
        }
    }
    Restriction {
        predicates: &[],
        expected: Expected::Each(ValueKind::Anything),
        one: false,
    }
}

/// The parameters that only property shapes have.
pub(crate) fn property_parameters() -> &'static [Id]
    ensures { result.now ≡ property_parameters }
{
    &PROPERTY_PARAMETERS
}
