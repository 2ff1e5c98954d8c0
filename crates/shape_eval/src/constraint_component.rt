//! Any constraint as a component: each call is that of its own component.
ghost use Rattle.std.specs.Prelude.{◌≡◌, List, ◌++◌, All, OnOk};
ghost use Rattle.graph_view.specs.declared.key.Key.{Key};
ghost use Rattle.graph_view.specs.Graph.{HasTerms};
ghost use Rattle.graph_view.specs.Valid.{IsValidView};
ghost use Rattle.comp_core.specs.declared.pair.Pair.{Pair};
ghost use Rattle.comp_core.specs.Laws.{Agreement, AsksValues};
ghost use Rattle.shape_eval.specs.Constraint.{constraint_numbers, constraint_asks, constraint_hits};
ghost use Rattle.shape_eval.specs.Constraint.{constraint_reads, IsReadOf};
ghost use Rattle.shape_eval.specs.Known.{IsKnownOf};

use crate::{Constraint, Known};
use comp_core::{At, Component, Conform, Pair, ResultRow};
use graph_view::GraphView;
use logic_components::{And, Node, Not, Or, Property, Xone};
use pair_components::{Disjoint, Equals, LessThan, LessThanOrEquals};
use qualified_shapes::{Closed, QualifiedMaxCount, QualifiedMinCount};
use shx_term::{Id, Memory};
use std::alloc::Global;
use value_components::{
    Class, Datatype, HasValue, In, LanguageIn, MaxCount, MaxExclusive, MaxInclusive, MaxLength,
    MinCount, MinExclusive, MinInclusive, MinLength, NodeKind, Pattern, UniqueLang,
};

impl<'p> Component<'p> for Constraint {
    type Known = Known<'p>;

    ghost use Rattle.shape_eval.specs.Constraint.{constraint_numbers, constraint_asks, constraint_hits};
    ghost use Rattle.shape_eval.specs.Constraint.{constraint_reads, IsReadOf};
    ghost use Rattle.shape_eval.specs.Known.{IsKnownOf};

    ghost knows = { IsKnownOf };

    ghost is_read_of = { IsReadOf };

    ghost numbers_of = { constraint_numbers };

    ghost asks_of = { constraint_asks };

    ghost hits_of = { constraint_hits };

    ghost reads_of = { constraint_reads };

    fn asks(&self, values: &[Id], out: &mut Vec<Pair>) -> Result<(), Memory>
        ensures { OnOk result (out.new.items ≡ out.old.items ++ constraint_asks self.now values.now) }
    {
        match self {
            Constraint::Class(c) => c.asks(values, out),
            Constraint::Datatype(c) => c.asks(values, out),
            Constraint::NodeKind(c) => c.asks(values, out),
            Constraint::MinCount(c) => c.asks(values, out),
            Constraint::MaxCount(c) => c.asks(values, out),
            Constraint::MinExclusive(c) => c.asks(values, out),
            Constraint::MinInclusive(c) => c.asks(values, out),
            Constraint::MaxExclusive(c) => c.asks(values, out),
            Constraint::MaxInclusive(c) => c.asks(values, out),
            Constraint::MinLength(c) => c.asks(values, out),
            Constraint::MaxLength(c) => c.asks(values, out),
            Constraint::Pattern(c) => c.asks(values, out),
            Constraint::LanguageIn(c) => c.asks(values, out),
            Constraint::UniqueLang(c) => c.asks(values, out),
            Constraint::Equals(c) => c.asks(values, out),
            Constraint::Disjoint(c) => c.asks(values, out),
            Constraint::LessThan(c) => c.asks(values, out),
            Constraint::LessThanOrEquals(c) => c.asks(values, out),
            Constraint::Not(c) => c.asks(values, out),
            Constraint::And(c) => c.asks(values, out),
            Constraint::Or(c) => c.asks(values, out),
            Constraint::Xone(c) => c.asks(values, out),
            Constraint::Node(c) => c.asks(values, out),
            Constraint::Property(c) => c.asks(values, out),
            Constraint::QualifiedMinCount(c) => c.asks(values, out),
            Constraint::QualifiedMaxCount(c) => c.asks(values, out),
            Constraint::Closed(c) => c.asks(values, out),
            Constraint::HasValue(c) => c.asks(values, out),
            Constraint::In(c) => c.asks(values, out),
        }
    }

    fn check<V: GraphView, C: Conform>(
        &'p self,
        alloc: Global,
        view: &V,
        conform: &C,
        known: &mut Known<'p>,
        at: At,
        values: &[Id],
        reads: &mut C::Noted,
        out: &mut Vec<ResultRow>,
    ) -> Result<(), Memory>
        requires valid { IsValidView (V.graph view.now) }
        requires numbers { HasTerms (V.graph view.now) (constraint_numbers self.now) }
        requires read { IsReadOf self.now (V.graph view.now).terms }
        requires values { HasTerms (V.graph view.now) values.now }
        requires known { IsKnownOf known.old (V.graph view.now) }
        requires held { All (C.holds conform.now) (constraint_asks self.now values.now) }
        ensures known { IsKnownOf known.new (V.graph view.now) }
        ensures rows { OnOk result (out.new.items ≡ out.old.items
            ++ constraint_hits self.now (V.graph view.now) (C.rows_of conform.now) at values.now) }
        ensures reads { (r : Pair → List Key) → C.tells conform.now r
            → OnOk result (C.Noted.notes reads.old reads.new
            (constraint_reads self.now (V.graph view.now) r at values.now)) }
    {
        let none = &mut ();
        match self {
            Constraint::Class(c) => {
                let known = &mut known.superclasses;
                c.check(alloc, view, conform, known, at, values, reads, out)
            },
            Constraint::Datatype(c) => c.check(alloc, view, conform, none, at, values, reads, out),
            Constraint::NodeKind(c) => c.check(alloc, view, conform, none, at, values, reads, out),
            Constraint::MinCount(c) => c.check(alloc, view, conform, none, at, values, reads, out),
            Constraint::MaxCount(c) => c.check(alloc, view, conform, none, at, values, reads, out),
            Constraint::MinExclusive(c) => c.check(
                alloc, view, conform, none, at, values, reads, out,
            ),
            Constraint::MinInclusive(c) => c.check(
                alloc, view, conform, none, at, values, reads, out,
            ),
            Constraint::MaxExclusive(c) => c.check(
                alloc, view, conform, none, at, values, reads, out,
            ),
            Constraint::MaxInclusive(c) => c.check(
                alloc, view, conform, none, at, values, reads, out,
            ),
            Constraint::MinLength(c) => c.check(alloc, view, conform, none, at, values, reads, out),
            Constraint::MaxLength(c) => c.check(alloc, view, conform, none, at, values, reads, out),
            Constraint::Pattern(c) => {
                let known = known.matchers.of(at.shape)?;
                c.check(alloc, view, conform, known, at, values, reads, out)
            },
            Constraint::LanguageIn(c) => c.check(
                alloc, view, conform, none, at, values, reads, out,
            ),
            Constraint::UniqueLang(c) => c.check(
                alloc, view, conform, none, at, values, reads, out,
            ),
            Constraint::Equals(c) => c.check(alloc, view, conform, none, at, values, reads, out),
            Constraint::Disjoint(c) => c.check(alloc, view, conform, none, at, values, reads, out),
            Constraint::LessThan(c) => c.check(alloc, view, conform, none, at, values, reads, out),
            Constraint::LessThanOrEquals(c) => c.check(
                alloc, view, conform, none, at, values, reads, out,
            ),
            Constraint::Not(c) => c.check(alloc, view, conform, none, at, values, reads, out),
            Constraint::And(c) => c.check(alloc, view, conform, none, at, values, reads, out),
            Constraint::Or(c) => c.check(alloc, view, conform, none, at, values, reads, out),
            Constraint::Xone(c) => c.check(alloc, view, conform, none, at, values, reads, out),
            Constraint::Node(c) => c.check(alloc, view, conform, none, at, values, reads, out),
            Constraint::Property(c) => c.check(alloc, view, conform, none, at, values, reads, out),
            Constraint::QualifiedMinCount(c) => c.check(
                alloc, view, conform, none, at, values, reads, out,
            ),
            Constraint::QualifiedMaxCount(c) => c.check(
                alloc, view, conform, none, at, values, reads, out,
            ),
            Constraint::Closed(c) => c.check(alloc, view, conform, none, at, values, reads, out),
            Constraint::HasValue(c) => c.check(alloc, view, conform, none, at, values, reads, out),
            Constraint::In(c) => c.check(alloc, view, conform, none, at, values, reads, out),
        }
    }

    fn laws()
        ensures agreement { Agreement constraint_numbers constraint_asks constraint_hits constraint_reads }
        ensures asks_values { AsksValues constraint_asks }
    {
        Class::laws();
        Datatype::laws();
        NodeKind::laws();
        MinCount::laws();
        MaxCount::laws();
        MinExclusive::laws();
        MinInclusive::laws();
        MaxExclusive::laws();
        MaxInclusive::laws();
        MinLength::laws();
        MaxLength::laws();
        Pattern::laws();
        LanguageIn::laws();
        UniqueLang::laws();
        Equals::laws();
        Disjoint::laws();
        LessThan::laws();
        LessThanOrEquals::laws();
        Not::laws();
        And::laws();
        Or::laws();
        Xone::laws();
        Node::laws();
        Property::laws();
        QualifiedMinCount::laws();
        QualifiedMaxCount::laws();
        Closed::laws();
        HasValue::laws();
        In::laws();
    }
}
