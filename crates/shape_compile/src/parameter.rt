//! Parameters each value of which makes a constraint by itself.
ghost use Rattle.std.specs.Prelude.{◌≡◌, ℕ, List, ◌++◌, flat_map, map, OnOk};
ghost use Rattle.shape_decl.specs.Declarations.{told_decl};
ghost use Rattle.shape_eval.specs.Content.{Nothing};
ghost use Rattle.shape_compile.specs.Constraints.{said_by, says};
ghost use Rattle.shape_compile.specs.inner.Parameters.{kind_made, predicate_of, stated_by};

use pair_components::{Disjoint, Equals, LessThan, LessThanOrEquals};
use shape_decl::ShapeDecl;
use shape_eval::Constraint;
use shx_term::vocabulary::*;
use shx_term::{Id, Memory};
use value_components::{
    Class, Datatype, HasValue, MaxCount, MaxExclusive, MaxInclusive, MaxLength, MinCount,
    MinExclusive, MinInclusive, MinLength, NodeKind,
};

/// A parameter that needs no more than its value (SHACL, sections 4.1 to 4.5 and 4.8.2).
#[derive(Clone, Copy, Debug, PartialEq, Eq)]
pub(crate) enum Parameter {
    Class,
    Datatype,
    NodeKind,
    MinCount,
    MaxCount,
    MinExclusive,
    MinInclusive,
    MaxExclusive,
    MaxInclusive,
    MinLength,
    MaxLength,
    Equals,
    Disjoint,
    LessThan,
    LessThanOrEquals,
    HasValue,
}

impl Parameter {
    fn predicate(self) -> Id
        ensures { result ≡ predicate_of self }
    {
        match self {
            Parameter::Class => SH_CLASS,
            Parameter::Datatype => SH_DATATYPE,
            Parameter::NodeKind => SH_NODE_KIND,
            Parameter::MinCount => SH_MIN_COUNT,
            Parameter::MaxCount => SH_MAX_COUNT,
            Parameter::MinExclusive => SH_MIN_EXCLUSIVE,
            Parameter::MinInclusive => SH_MIN_INCLUSIVE,
            Parameter::MaxExclusive => SH_MAX_EXCLUSIVE,
            Parameter::MaxInclusive => SH_MAX_INCLUSIVE,
            Parameter::MinLength => SH_MIN_LENGTH,
            Parameter::MaxLength => SH_MAX_LENGTH,
            Parameter::Equals => SH_EQUALS,
            Parameter::Disjoint => SH_DISJOINT,
            Parameter::LessThan => SH_LESS_THAN,
            Parameter::LessThanOrEquals => SH_LESS_THAN_OR_EQUALS,
            Parameter::HasValue => SH_HAS_VALUE,
        }
    }

    fn constraint(self, value: Id) -> Constraint
        ensures { (nodes : List ℕ) → said_by nodes result ≡ says (kind_made self) Nothing value }
    {
        match self {
            Parameter::Class => Constraint::Class(Class::new(value)),
            Parameter::Datatype => Constraint::Datatype(Datatype::new(value)),
            Parameter::NodeKind => Constraint::NodeKind(NodeKind::new(value)),
            Parameter::MinCount => Constraint::MinCount(MinCount::new(value)),
            Parameter::MaxCount => Constraint::MaxCount(MaxCount::new(value)),
            Parameter::MinExclusive => Constraint::MinExclusive(MinExclusive::new(value)),
            Parameter::MinInclusive => Constraint::MinInclusive(MinInclusive::new(value)),
            Parameter::MaxExclusive => Constraint::MaxExclusive(MaxExclusive::new(value)),
            Parameter::MaxInclusive => Constraint::MaxInclusive(MaxInclusive::new(value)),
            Parameter::MinLength => Constraint::MinLength(MinLength::new(value)),
            Parameter::MaxLength => Constraint::MaxLength(MaxLength::new(value)),
            Parameter::Equals => Constraint::Equals(Equals::new(value)),
            Parameter::Disjoint => Constraint::Disjoint(Disjoint::new(value)),
            Parameter::LessThan => Constraint::LessThan(LessThan::new(value)),
            Parameter::LessThanOrEquals => {
                Constraint::LessThanOrEquals(LessThanOrEquals::new(value))
            }
            Parameter::HasValue => Constraint::HasValue(HasValue::new(value)),
        }
    }
}

/// Appends a constraint for each value of these parameters.
pub(crate) fn add_values(
    decl: &ShapeDecl,
    parameters: &[Parameter],
    out: &mut Vec<Constraint>,
) -> Result<(), Memory>
    ensures { OnOk result ((nodes : List ℕ) → map (said_by nodes) out.new.items
        ≡ map (said_by nodes) out.old.items ++ flat_map (stated_by (told_decl decl.now)) parameters.now) }
{
    for parameter in parameters {
        add_values_of(decl, *parameter, out)?;
    }
    Ok(())
}

/// The same of one parameter.
pub(crate) fn add_values_of(
    decl: &ShapeDecl,
    parameter: Parameter,
    out: &mut Vec<Constraint>,
) -> Result<(), Memory>
    ensures { OnOk result ((nodes : List ℕ) → map (said_by nodes) out.new.items
        ≡ map (said_by nodes) out.old.items ++ stated_by (told_decl decl.now) parameter) }
{
    for value in decl.values_of(parameter.predicate()) {
        out.push(parameter.constraint(*value))?;
    }
    Ok(())
}
