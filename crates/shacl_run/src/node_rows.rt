//! Results by node, and how they come into the order of the nodes' terms.
ghost use Rattle.std.specs.Prelude.{◌≡◌, ◌++◌, ℕ, List, flat_map, map, OnOk};
ghost use Rattle.std.specs.List.Sorted.{IsStrictlySortedBy};
ghost use Rattle.std.specs.Ordering.{nat_cmp};
ghost use Rattle.shx_term.specs.IdOrder.{in_term_order};
ghost use Rattle.comp_core.specs.declared.row.ResultRow.{ResultRow as Row};
ghost use Rattle.shacl_run.specs.inner.NodeRows.{AreRowsAt, entry_if_any, entry_of};

use comp_core::ResultRow;
use shx_term::{Id, Memory, Pool};
use std::alloc::Global;

/// The results at a node that has some.
#[derive(Drop)]
pub(crate) struct NodeRows {
    node: Id,
    rows: Vec<ResultRow>,
}

/// Keeps the results at a node, where there are some: nothing is kept of a node that has none.
pub(crate) fn keep_rows(
    alloc: Global,
    found: &mut Vec<NodeRows>,
    node: Id,
    mut rows: Vec<ResultRow>,
) -> Result<(), Memory>
    ensures { OnOk result (map entry_of found.new.items
        ≡ map entry_of found.old.items ++ entry_if_any node rows.items) }
{
    if rows.is_empty() {
        return Ok(());
    }
    // Most nodes have fewer than a vector makes room for, and one that shrinks leaves holes behind.
    let mut kept = Vec::with_capacity(alloc, rows.len())?;
    kept.append(&mut rows)?;
    found.push(NodeRows { node, rows: kept })?;
    Ok(())
}

/// Adds the results at nodes that ascend, by the terms of the nodes. It sorts the nodes that have some.
pub(crate) fn add_in_term_order(
    pool: &Pool,
    mut found: Vec<NodeRows>,
    rows: &mut Vec<ResultRow>,
) -> Result<(), Memory>
    ensures { OnOk result ((f : ℕ → List Row) (nodes : List ℕ) → IsStrictlySortedBy nat_cmp nodes
        → AreRowsAt f nodes found.items
        → rows.new.items ≡ rows.old.items ++ flat_map f (in_term_order pool.now.terms nodes)) }
{
    found.sort_unstable_by(|a, b| pool.cmp_ids(a.node, b.node));
    rows.reserve(found.len())?;
    for mut at in found {
        rows.append(&mut at.rows)?;
    }
    Ok(())
}
