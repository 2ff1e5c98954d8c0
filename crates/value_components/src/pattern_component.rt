//! sh:pattern as a component: it knows a matcher from one check to the next.
ghost use Rattle.std.specs.Prelude.{◌≡◌, [], ◌++◌, OnOk, Some};
ghost use Rattle.graph_view.specs.Graph.{HasTerms};
ghost use Rattle.graph_view.specs.Valid.{IsValidView};
ghost use Rattle.comp_core.specs.Laws.{Agreement, AsksValues};
ghost use Rattle.value_components.specs.Pattern.{pattern_hits};
ghost use Rattle.value_components.specs.declared.pattern.Pattern.{Pattern};

use crate::Pattern;
use crate::matches::check_texts;
use comp_core::{At, Component, Conform, Pair, ResultRow};
use graph_view::GraphView;
use shx_outside::PatternMatcher;
use shx_term::{Id, Memory};
use std::alloc::Global;

// Sees to it that what is known looks for a pattern: it stays where it does. It stands where it is, since a
// matcher is large, with all that it learned.
fn look_for<'p>(
    alloc: Global,
    pattern: &'p shx_outside::Pattern,
    known: &mut Option<PatternMatcher<'p>>,
) -> Result<(), Memory>
    ensures { OnOk result (known.new ≡ Some pattern.now) }
{
    if let Some(matcher) = known {
        if matcher.is_of(pattern) {
            return Ok(());
        }
    }
    make_matcher(alloc, pattern, known)
}

// A function of its own: the place for a new matcher would be cleared at each call of its caller.
fn make_matcher<'p>(
    alloc: Global,
    pattern: &'p shx_outside::Pattern,
    known: &mut Option<PatternMatcher<'p>>,
) -> Result<(), Memory>
    ensures { OnOk result (known.new ≡ Some pattern.now) }
{
    *known = Some(pattern.matcher(alloc)?);
    Ok(())
}

impl<'p> Component<'p> for Pattern {
    type Known = Option<PatternMatcher<'p>>;

    ghost use Rattle.std.specs.Prelude.{[]};
    ghost use Rattle.value_components.specs.Pattern.{pattern_hits};

    ghost knows = { λ known g. Unit };

    ghost is_read_of = { λ c terms. Unit };

    ghost numbers_of = { λ c. [] };

    ghost asks_of = { λ c vs. [] };

    ghost hits_of = { λ c g m at vs. pattern_hits c g at vs };

    ghost reads_of = { λ c g r at vs. [] };

    fn asks(&self, _values: &[Id], out: &mut Vec<Pair>) -> Result<(), Memory>
        ensures { OnOk result (out.new.items ≡ out.old.items ++ []) }
    {
        Ok(())
    }

    fn check<V: GraphView, C: Conform>(
        &'p self,
        alloc: Global,
        view: &V,
        _conform: &C,
        known: &mut Option<PatternMatcher<'p>>,
        at: At,
        values: &[Id],
        reads: &mut C::Noted,
        out: &mut Vec<ResultRow>,
    ) -> Result<(), Memory>
        requires valid { IsValidView (V.graph view.now) }
        requires values { HasTerms (V.graph view.now) values.now }
        ensures rows { OnOk result (out.new.items ≡ out.old.items
            ++ pattern_hits self.now (V.graph view.now) at values.now) }
        ensures reads { OnOk result (C.Noted.notes reads.old reads.new []) }
    {
        look_for(alloc, &self.built, known)?;
        let Some(matcher) = known else {
            unreachable!();
        };
        check_texts(alloc, view, matcher, at, values, out)?;
        Ok(())
    }

    fn laws()
        ensures agreement { Agreement (λ (c : Pattern). []) (λ c vs. [])
            (λ c g m at vs. pattern_hits c g at vs) (λ c g r at vs. []) }
        ensures asks_values { AsksValues (λ (c : Pattern) vs. []) }
    {}
}
