//! The triples of value nodes, but for those with predicates that are allowed.
ghost use Rattle.std.specs.Prelude.{◌≡◌, ◌++◌, flat_map, OnOk};
ghost use Rattle.qualified_shapes.specs.Closed.{closed_at, closed_hit, closed_reads, is_allowed};

use comp_core::kinds::CLOSED;
use comp_core::{At, ResultRow};
use graph_view::{GraphView, Notes};
use id_list::IdList;
use shx_term::{Id, Memory, Triple};
use std::alloc::Global;

// Whether a predicate is permitted or ignored.
fn is_allowed(permitted: &IdList, ignored: &IdList, p: Id) -> bool
    ensures { result ≡ is_allowed permitted.now ignored.now p }
{
    permitted.has(p) || ignored.has(p)
}

// Appends a result for each of the triples whose predicate is not allowed.
fn check_triples(
    alloc: Global,
    permitted: &IdList,
    ignored: &IdList,
    at: At,
    triples: &[Triple],
    out: &mut Vec<ResultRow>,
) -> Result<(), Memory>
    ensures { OnOk result (out.new.items
        ≡ out.old.items ++ flat_map (closed_hit permitted.now ignored.now at) triples.now) }
{
    for t in triples {
        if !is_allowed(permitted, ignored, t.p) {
            out.push(ResultRow::plain(alloc, at.focus, Some(t.o), Some(t.p), at.shape, CLOSED)?)?;
        }
    }
    Ok(())
}

/// Appends a result for each triple of the value nodes whose predicate is not allowed, by value node,
/// predicate and object. A predicate is looked up, and not compared with all that are allowed.
pub(crate) fn check_closed<V: GraphView, N: Notes>(
    alloc: Global,
    view: &V,
    permitted: &IdList,
    ignored: &IdList,
    at: At,
    values: &[Id],
    reads: &mut N,
    out: &mut Vec<ResultRow>,
) -> Result<(), Memory>
    ensures rows { OnOk result (out.new.items ≡ out.old.items
        ++ closed_at permitted.now ignored.now (V.graph view.now) at values.now) }
    ensures reads { OnOk result (N.notes reads.old reads.new (closed_reads values.now)) }
{
    for v in values {
        let triples = view.triples_of(alloc, *v, reads)?;
        check_triples(alloc, permitted, ignored, at, &triples, out)?;
    }
    Ok(())
}
