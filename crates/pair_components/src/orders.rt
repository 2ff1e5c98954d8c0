//! Value nodes that are less than others (SHACL, sections 4.5.3 and 4.5.4).
ghost use Rattle.std.specs.Prelude.{◌≡◌, ◌++◌, map, IfOk, OnOk};
ghost use Rattle.graph_view.specs.Graph.{HasTerms};
ghost use Rattle.graph_view.specs.Valid.{IsValidView};
ghost use Rattle.value_space.specs.Compared.{read_as};
ghost use Rattle.comp_core.specs.TermTests.{are_so_at};
ghost use Rattle.pair_components.specs.PairResults.{each_pair_unless};
ghost use Rattle.pair_components.specs.inner.Orders.{beside_read, compared_at, is_kept, is_kept_by};

use comp_core::{At, Kind, ResultRow, add_unless};
use graph_view::{GraphView, term_of};
use shx_term::{Id, Memory};
use std::alloc::Global;
use value_space::{ReadLiteral, is_less, is_less_eq};

/// How a value node stands to each of the others.
#[derive(Clone, Copy)]
pub(crate) enum Order {
    Less,
    LessOrEqual,
}

impl Order {
    fn is_kept(self, a: &Option<ReadLiteral>, b: &Option<ReadLiteral>) -> bool
        ensures { result ≡ is_kept self (read_as a.now) (read_as b.now) }
    {
        match self {
            Order::Less => is_less(a, b),
            Order::LessOrEqual => is_less_eq(a, b),
        }
    }
}

// The terms of some numbers, each read once.
fn read_terms<'a, V: GraphView>(
    alloc: Global,
    view: &'a V,
    ids: &[Id],
) -> Result<Vec<Option<ReadLiteral<'a>>>, Memory>
    requires valid { IsValidView (V.graph view.now) }
    requires ids { HasTerms (V.graph view.now) ids.now }
    ensures { IfOk result (λ read. map read_as read.items ≡ map (compared_at (V.graph view.now)) ids.now) }
{
    let mut read = Vec::with_capacity(alloc, ids.len())?;
    for id in ids {
        read.push(ReadLiteral::of_term(term_of(view, *id)))?;
    }
    Ok(read)
}

// Appends a result for each of the others to which the node does not stand in the order.
fn check_beside(
    alloc: Global,
    order: Order,
    others: &[Option<ReadLiteral>],
    kind: Kind,
    at: At,
    node: Id,
    term: &Option<ReadLiteral>,
    out: &mut Vec<ResultRow>,
) -> Result<(), Memory>
    ensures { OnOk result (out.new.items ≡ out.old.items
        ++ beside_read order kind at node (read_as term.now) (map read_as others.now)) }
{
    for other in others {
        let is_fine = order.is_kept(term, other);
        add_unless(alloc, is_fine, kind, at, node, out)?;
    }
    Ok(())
}

/// Appends a result for each value node and each of the others to which it does not stand in the order. What
/// does not compare is a result. Each term is read once.
pub(crate) fn check_order<V: GraphView>(
    alloc: Global,
    view: &V,
    order: Order,
    others: &[Id],
    kind: Kind,
    at: At,
    values: &[Id],
    out: &mut Vec<ResultRow>,
) -> Result<(), Memory>
    requires valid { IsValidView (V.graph view.now) }
    requires others { HasTerms (V.graph view.now) others.now }
    requires values { HasTerms (V.graph view.now) values.now }
    ensures { OnOk result (out.new.items ≡ out.old.items ++ each_pair_unless
        (are_so_at (is_kept_by order) (V.graph view.now)) kind at others.now values.now) }
{
    let read = read_terms(alloc, view, others)?;
    for v in values {
        let term = ReadLiteral::of_term(term_of(view, *v));
        check_beside(alloc, order, &read, kind, at, *v, &term, out)?;
    }
    Ok(())
}
