//! What a constraint says beside its component and its parameter.
ghost use Rattle.std.specs.Prelude.{◌≡◌, ℕ, List};
ghost use Rattle.shape_eval.specs.Constraint.{shapes_named};
ghost use Rattle.shape_eval.specs.Content.{content_of};
ghost use Rattle.plan_swap.specs.inner.Stated.{named_in, stated_content};

use comp_core::ShapeNo;
use shape_eval::Constraint;
use shx_outside::Flags;
use shx_term::{Id, Text};
use std::slice;

/// What a constraint says, with the numbers of its shapes.
#[derive(Clone, Copy, Debug)]
pub(crate) enum Stated<'c> {
    Nothing,
    /// The text of a pattern, and its flags.
    Matches(&'c Text, Flags),
    /// The members of a list.
    Members(&'c [Id]),
    /// Shapes that are named, in their order: these, and then those.
    Names(&'c [ShapeNo], &'c [ShapeNo]),
    /// The predicates that are permitted, and those that are ignored.
    Permits(&'c [Id], &'c [Id]),
}

/// What a constraint says.
pub(crate) fn stated_by(c: &Constraint) -> Stated<'_>
    ensures content { (nodes : List ℕ) → stated_content nodes result ≡ content_of nodes c.now }
    ensures named { named_in result ≡ shapes_named c.now }
{
    match c {
        Constraint::Pattern(c) => Stated::Matches(&c.text, c.flags),
        Constraint::LanguageIn(c) => Stated::Members(c.members.as_slice()),
        Constraint::Not(c) => Stated::Names(slice::from_ref(&c.shape), &[]),
        Constraint::And(c) => Stated::Names(&c.shapes, &[]),
        Constraint::Or(c) => Stated::Names(&c.shapes, &[]),
        Constraint::Xone(c) => Stated::Names(&c.shapes, &[]),
        Constraint::Node(c) => Stated::Names(slice::from_ref(&c.shape), &[]),
        Constraint::Property(c) => Stated::Names(slice::from_ref(&c.shape), &[]),
        Constraint::QualifiedMinCount(c) => {
            Stated::Names(slice::from_ref(&c.shape), &c.siblings)
        }
        Constraint::QualifiedMaxCount(c) => {
            Stated::Names(slice::from_ref(&c.shape), &c.siblings)
        }
        Constraint::Closed(c) => Stated::Permits(c.permitted.as_slice(), c.ignored.as_slice()),
        Constraint::In(c) => Stated::Members(c.members.as_slice()),
        _ => Stated::Nothing,
    }
}
