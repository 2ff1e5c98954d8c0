//! All constraints that a shape states, in order: by component, and then by parameter.
ghost use Rattle.std.specs.Prelude.{◌≡◌, ℕ, List, ◌++◌, All, Contains, flat_map, map, IfOk, OnOk};
ghost use Rattle.shx_term.specs.declared.vocabulary.TheConstants.{SH_QUALIFIED_VALUE_SHAPE as QUALIFIED};
ghost use Rattle.shape_decl.specs.Declarations.{Declaration, told_decl, values_under};
ghost use Rattle.shape_eval.specs.Constraint.{IsReadOf};
ghost use Rattle.shape_refs.specs.References.{named_by, references_of, siblings_of};
ghost use Rattle.shape_compile.specs.Constraints.{constraints_stated, other_constraints, pair_constraints};
ghost use Rattle.shape_compile.specs.Constraints.{said_by, shape_constraints, text_constraints};
ghost use Rattle.shape_compile.specs.Constraints.{value_constraints};
ghost use Rattle.shape_compile.specs.inner.Built.{IsBuiltFor};
ghost use Rattle.shape_compile.specs.inner.Parameters.{stated_by};
ghost use Rattle.shape_compile.specs.inner.Shapes.{stated_of_count};
ghost use Rattle.shape_compile.specs.declared.of_count.OfCount.TheVariants.{Least, Most};

use crate::closed::add_closed;
use crate::of_count::{OfCount, add_of_count};
use crate::of_list::{OfList, add_of_list};
use crate::of_shape::{OfShape, add_of_shape};
use crate::of_shape_list::{OfShapeList, add_of_shape_list};
use crate::parameter::{Parameter, add_values, add_values_of};
use crate::pattern::{add_pattern, add_unique_lang};
use crate::reading::read_terms;
use shape_decl::ShapeDecl;
use shape_eval::Constraint;
use shape_refs::{Declared, ShapeOrder};
use shx_outside::Pattern;
use shx_term::{Id, Memory};
use std::alloc::Global;

const OF_VALUES: [Parameter; 11] = [
    Parameter::Class,
    Parameter::Datatype,
    Parameter::NodeKind,
    Parameter::MinCount,
    Parameter::MaxCount,
    Parameter::MinExclusive,
    Parameter::MinInclusive,
    Parameter::MaxExclusive,
    Parameter::MaxInclusive,
    Parameter::MinLength,
    Parameter::MaxLength,
];

const OF_PAIRS: [Parameter; 4] = [
    Parameter::Equals,
    Parameter::Disjoint,
    Parameter::LessThan,
    Parameter::LessThanOrEquals,
];

/// The constraints of a shape, whose pattern was built. The terms of their counts and bounds are read.
pub(crate) fn constraints_of(
    alloc: Global,
    declared: &Declared<'_>,
    order: &ShapeOrder,
    decl: &ShapeDecl,
    siblings: &[Id],
    built: Option<Pattern>,
) -> Result<Vec<Constraint>, Memory>
    requires named { All (Contains order.now.nodes.keys) (references_of declared.now.pool.now.terms
        (map told_decl declared.now.decls.now) (told_decl decl.now)) }
    requires siblings { siblings.now ≡ siblings_of declared.now.pool.now.terms
        (map told_decl declared.now.decls.now) (told_decl decl.now) }
    requires built { IsBuiltFor declared.now.pool.now.terms (told_decl decl.now) built }
    ensures said { IfOk result (λ found. map (said_by order.now.nodes.keys) found.items ≡ constraints_stated
        declared.now.pool.now.terms (map told_decl declared.now.decls.now) (told_decl decl.now)) }
    ensures read { IfOk result (λ found. All (λ c. IsReadOf c declared.now.pool.now.terms) found.items) }
{
    let mut out = Vec::new(alloc);
    add_values(decl, of_values(), &mut out)?;
    add_texts(alloc, declared, decl, built, &mut out)?;
    add_values(decl, of_pairs(), &mut out)?;
    add_shapes(alloc, decl, order, &mut out)?;
    add_counts(alloc, decl, order, siblings, &mut out)?;
    add_others(alloc, declared, decl, &mut out)?;
    read_terms(declared.pool, &mut out);
    Ok(out)
}

// Those of texts.
fn add_texts(
    alloc: Global,
    declared: &Declared<'_>,
    decl: &ShapeDecl,
    built: Option<Pattern>,
    out: &mut Vec<Constraint>,
) -> Result<(), Memory>
    requires { IsBuiltFor declared.now.pool.now.terms (told_decl decl.now) built }
    ensures { OnOk result ((nodes : List ℕ) → map (said_by nodes) out.new.items
        ≡ map (said_by nodes) out.old.items
        ++ text_constraints declared.now.pool.now.terms (told_decl decl.now)) }
{
    add_pattern(alloc, declared.pool, decl, built, out)?;
    add_of_list(alloc, decl, OfList::LanguageIn, out)?;
    add_unique_lang(declared.pool, decl, out)
}

// Those of other shapes.
fn add_shapes(
    alloc: Global,
    decl: &ShapeDecl,
    order: &ShapeOrder,
    out: &mut Vec<Constraint>,
) -> Result<(), Memory>
    requires { All (Contains order.now.nodes.keys) (named_by (told_decl decl.now)) }
    ensures { OnOk result (map (said_by order.now.nodes.keys) out.new.items
        ≡ map (said_by order.now.nodes.keys) out.old.items ++ shape_constraints (told_decl decl.now)) }
{
    add_of_shape(decl, order, OfShape::Not, out)?;
    add_of_shape_list(alloc, decl, order, OfShapeList::And, out)?;
    add_of_shape_list(alloc, decl, order, OfShapeList::Or, out)?;
    add_of_shape_list(alloc, decl, order, OfShapeList::Xone, out)?;
    add_of_shape(decl, order, OfShape::Node, out)?;
    add_of_shape(decl, order, OfShape::Property, out)
}

// Those of counts at a shape.
fn add_counts(
    alloc: Global,
    decl: &ShapeDecl,
    order: &ShapeOrder,
    siblings: &[Id],
    out: &mut Vec<Constraint>,
) -> Result<(), Memory>
    requires shapes { All (Contains order.now.nodes.keys) (values_under (told_decl decl.now) QUALIFIED) }
    requires siblings { All (Contains order.now.nodes.keys) siblings.now }
    ensures { OnOk result (map (said_by order.now.nodes.keys) out.new.items
        ≡ map (said_by order.now.nodes.keys) out.old.items
        ++ (stated_of_count siblings.now (told_decl decl.now) Least
        ++ stated_of_count siblings.now (told_decl decl.now) Most)) }
{
    add_of_count(alloc, decl, order, siblings, OfCount::Least, out)?;
    add_of_count(alloc, decl, order, siblings, OfCount::Most, out)
}

// Those of closed shapes, and of values that are given.
fn add_others(
    alloc: Global,
    declared: &Declared<'_>,
    decl: &ShapeDecl,
    out: &mut Vec<Constraint>,
) -> Result<(), Memory>
    ensures { OnOk result ((nodes : List ℕ) → map (said_by nodes) out.new.items
        ≡ map (said_by nodes) out.old.items ++ other_constraints declared.now.pool.now.terms
        (map told_decl declared.now.decls.now) (told_decl decl.now)) }
{
    add_closed(alloc, declared, decl, out)?;
    add_values_of(decl, Parameter::HasValue, out)?;
    add_of_list(alloc, decl, OfList::In, out)
}

fn of_values() -> &'static [Parameter]
    ensures { (d : Declaration) → flat_map (stated_by d) result.now ≡ value_constraints d }
{
    &OF_VALUES
}

fn of_pairs() -> &'static [Parameter]
    ensures { (d : Declaration) → flat_map (stated_by d) result.now ≡ pair_constraints d }
{
    &OF_PAIRS
}
