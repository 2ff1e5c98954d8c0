//! What components ask of the terms of value nodes.
ghost use Rattle.std.specs.Prelude.{◌≡◌, ◌++◌, Bool, OnOk};
ghost use Rattle.shx_term.specs.declared.term.Term.{Term};
ghost use Rattle.shx_term.specs.ValidTriples.{IsNotWide};
ghost use Rattle.graph_view.specs.Graph.{HasTerms};
ghost use Rattle.graph_view.specs.Valid.{IsValidView};
ghost use Rattle.comp_core.specs.Results.{each_unless};
ghost use Rattle.comp_core.specs.TermTests.{is_so_at};

use comp_core::{At, Kind, ResultRow, add_unless};
use graph_view::{GraphView, term_of};
use shx_term::{Id, Memory, Term};
use std::alloc::Global;

/// A condition on terms. What it takes from the parameter of a component was read before.
pub(crate) trait Condition {
    /// Which terms it holds of.
    ghost holds_of: { Self → Term → Bool };

    /// Whether it holds of a term. It takes no memory.
    fn holds(&self, term: &Term) -> bool
        requires { IsNotWide term.now }
        ensures { result ≡ holds_of self.now term.now };
}

/// Appends a result for each value node of whose term the condition does not hold.
pub(crate) fn check_terms<V: GraphView, D: Condition>(
    alloc: Global,
    view: &V,
    condition: &D,
    kind: Kind,
    at: At,
    values: &[Id],
    out: &mut Vec<ResultRow>,
) -> Result<(), Memory>
    requires valid { IsValidView (V.graph view.now) }
    requires values { HasTerms (V.graph view.now) values.now }
    ensures { OnOk result (out.new.items ≡ out.old.items
        ++ each_unless (is_so_at (D.holds_of condition.now) (V.graph view.now)) kind at values.now) }
{
    for v in values {
        let is_fine = condition.holds(term_of(view, *v));
        add_unless(alloc, is_fine, kind, at, *v, out)?;
    }
    Ok(())
}
