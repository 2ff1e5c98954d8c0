//! The one loop over value nodes for sh:pattern.
ghost use Rattle.std.specs.Prelude.{◌≡◌, ◌++◌, OnOk};
ghost use Rattle.comp_core.specs.declared.kinds.TheConstants.{PATTERN};
ghost use Rattle.graph_view.specs.Graph.{HasTerms};
ghost use Rattle.graph_view.specs.Valid.{IsValidView};
ghost use Rattle.value_components.specs.Pattern.{has_match};
ghost use Rattle.comp_core.specs.Results.{each_unless};
ghost use Rattle.comp_core.specs.TermTests.{is_so_at};

use crate::texts::text_of;
use comp_core::kinds::PATTERN;
use comp_core::{At, ResultRow, add_unless};
use graph_view::{GraphView, term_of};
use shx_outside::PatternMatcher;
use shx_term::{Id, Memory, Term};
use std::alloc::Global;

// Whether the term has a text, in which the pattern has a match.
fn has_match(matcher: &mut PatternMatcher<'_>, term: &Term) -> bool
    ensures has { result ≡ has_match matcher.old.text matcher.old.flags term.now }
    ensures same { matcher.new ≡ matcher.old }
{
    match text_of(term) {
        Some(text) => matcher.is_match(text),
        None => false,
    }
}

/// Appends a result for each value node without a match.
pub(crate) fn check_texts<V: GraphView>(
    alloc: Global,
    view: &V,
    matcher: &mut PatternMatcher<'_>,
    at: At,
    values: &[Id],
    out: &mut Vec<ResultRow>,
) -> Result<(), Memory>
    requires valid { IsValidView (V.graph view.now) }
    requires values { HasTerms (V.graph view.now) values.now }
    ensures { OnOk result (out.new.items ≡ out.old.items ++ each_unless
        (is_so_at (has_match matcher.old.text matcher.old.flags) (V.graph view.now)) PATTERN at values.now) }
{
    for v in values {
        let is_fine = has_match(matcher, term_of(view, *v));
        add_unless(alloc, is_fine, PATTERN, at, *v, out)?;
    }
    Ok(())
}
