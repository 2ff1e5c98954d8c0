//! The first term at which a shape breaks a rule, among the values of one predicate.
ghost use Rattle.std.specs.Prelude.{◌≡◌, drop};
ghost use Rattle.std.specs.Option.{option_map};
ghost use Rattle.shape_decl.specs.Declarations.{told_values};
ghost use Rattle.shape_decl.specs.PathReadings.{told_reading};
ghost use Rattle.shape_check.specs.Faults.{first, first_if, is_broken, is_too_deep};
ghost use Rattle.shape_check.specs.inner.Judging.{offenders_in};
ghost use Rattle.shape_check.specs.Restrictions.{restriction_of};

use crate::judged::Judged;
use crate::kinds::{first_unfit, first_with_unknown_flag};
use crate::lists::{first_broken, first_unfit_member};
use crate::restrictions::{property_parameters, restriction_of};
use crate::{Expected, Rule};
use shape_decl::{Declared, PathReading};
use shx_term::Id;
use shx_term::vocabulary::{SH_FLAGS, SH_NODE, SH_PATH, SH_PROPERTY};

/// The first term at which the shape breaks the rule, among the values of one of its predicates.
pub(crate) fn first_offender(judged: &Judged, rule: Rule, declared: &Declared) -> Option<Id>
    ensures { result ≡ first (offenders_in judged.now rule (told_values declared.now)) }
{
    let decl = judged.decl;
    let predicate = declared.predicate;
    match rule {
        Rule::BadList => broken_list(judged, declared),
        Rule::TooManyValues => second_value(declared),
        Rule::WrongKind => of_other_kind(judged, declared),
        Rule::NotOnNodeShape => first_if(
            decl.path.is_none() && property_parameters().contains(&predicate),
            &declared.values,
        ),
        Rule::BadPath => first_if(
            predicate == SH_PATH && is_broken(&decl.path),
            &declared.values,
        ),
        Rule::NotAPropertyShape => without_path(judged, declared),
        Rule::NotANodeShape => with_path(judged, declared),
        Rule::BadFlags => with_unknown_flag(judged, declared),
        Rule::PathTooDeep => first_if(
            predicate == SH_PATH && is_too_deep(&decl.path),
            &declared.values,
        ),
    }
}

fn first_if(broken: bool, values: &[Id]) -> Option<Id>
    ensures { result ≡ first (first_if broken values.now) }
{
    if broken {
        values.first().copied()
    } else {
        None
    }
}

fn is_broken(path: &Option<PathReading>) -> bool
    ensures { result ≡ is_broken (option_map told_reading path.now) }
{
    matches!(path, Some(PathReading::Broken))
}

fn is_too_deep(path: &Option<PathReading>) -> bool
    ensures { result ≡ is_too_deep (option_map told_reading path.now) }
{
    matches!(path, Some(PathReading::TooDeep))
}

fn broken_list(judged: &Judged, declared: &Declared) -> Option<Id>
    ensures { result ≡ first (offenders_in judged.now Rule.BadList (told_values declared.now)) }
{
    first_broken(judged.decl.lists_of(declared.predicate))
}

fn second_value(declared: &Declared) -> Option<Id>
    ensures { result ≡ first (first_if (restriction_of declared.now.predicate).one
        (drop 1 declared.now.values.items)) }
{
    if restriction_of(declared.predicate).one {
        declared.values.get(1).copied()
    } else {
        None
    }
}

fn of_other_kind(judged: &Judged, declared: &Declared) -> Option<Id>
    ensures { result ≡ first (offenders_in judged.now Rule.WrongKind (told_values declared.now)) }
{
    match restriction_of(declared.predicate).expected {
        Expected::Each(kind) => first_unfit(judged.pool, kind, &declared.values),
        Expected::Lists(kind) => {
            first_unfit_member(judged.decl.lists_of(declared.predicate), judged.pool, kind)
        }
    }
}

fn without_path(judged: &Judged, declared: &Declared) -> Option<Id>
    ensures { result ≡ first (offenders_in judged.now Rule.NotAPropertyShape (told_values declared.now)) }
{
    if declared.predicate == SH_PROPERTY {
        judged.property_shapes.first_not_in(&declared.values)
    } else {
        None
    }
}

fn with_path(judged: &Judged, declared: &Declared) -> Option<Id>
    ensures { result ≡ first (offenders_in judged.now Rule.NotANodeShape (told_values declared.now)) }
{
    if declared.predicate == SH_PATH {
        first_if(judged.decl.is_node_shape, &declared.values)
    } else if declared.predicate == SH_NODE {
        judged.property_shapes.first_in(&declared.values)
    } else {
        None
    }
}

fn with_unknown_flag(judged: &Judged, declared: &Declared) -> Option<Id>
    ensures { result ≡ first (offenders_in judged.now Rule.BadFlags (told_values declared.now)) }
{
    if declared.predicate == SH_FLAGS {
        first_with_unknown_flag(judged.pool, &declared.values)
    } else {
        None
    }
}
