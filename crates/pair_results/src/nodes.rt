//! The nodes of one shape: each has a place, where its results stand, or where there is room for some.
ghost use Rattle.std.specs.Prelude.{◌≡◌, ◌+◌, [], false, Some, is_none, IsSome, IfOk, OnOk, OnErr, length};
ghost use Rattle.std.specs.BTreeMap.{IsOrdered, Updates};
ghost use Rattle.shx_term.specs.TermOrder.{term_cmp};
ghost use Rattle.pair_results.specs.PairResults.{place_of, rows_in, rows_of_nodes};
ghost use Rattle.pair_results.specs.inner.Invariant.{IsFilled, KeepPlaces, SameOtherPlaces, SameRowsIn};

use comp_core::{ResultRow, RowList};
use shx_term::{Memory, Term};
use std::alloc::Global;
use std::collections::BTreeMap;

/// Nodes by their terms, each with its results.
pub(crate) type Nodes = BTreeMap<Term, RowList>;

/// The results at a node. It takes no memory.
pub(crate) fn rows_in<'a>(nodes: &'a Nodes, node: &Term) -> &'a [ResultRow]
    ensures { result.now ≡ rows_in nodes.now.entries node.now }
{
    match nodes.get(node) {
        Some(rows) => rows.as_slice(),
        None => &[],
    }
}

/// Sees to it that a node has a place, and says whether it had none.
pub(crate) fn make_place(alloc: Global, nodes: &mut Nodes, node: &Term) -> Result<bool, Memory>
    ensures new { IfOk result (λ new. new ≡ is_none (place_of nodes.old.entries node.now)) }
    ensures rows { SameRowsIn nodes.old.entries nodes.new.entries }
    ensures places { KeepPlaces nodes.old.entries nodes.new.entries }
    ensures others { SameOtherPlaces node.now nodes.old.entries nodes.new.entries }
    ensures held { IfOk result (λ new. new ≡ false → nodes.new.entries ≡ nodes.old.entries) }
    ensures refused { OnErr result (nodes.new.entries ≡ nodes.old.entries) }
    ensures made { OnOk result (IsSome (place_of nodes.new.entries node.now)) }
    ensures all { rows_of_nodes nodes.new.entries ≡ rows_of_nodes nodes.old.entries }
    ensures ordered { IsOrdered term_cmp nodes.old → IsOrdered term_cmp nodes.new }
{
    if nodes.contains_key(node) {
        return Ok(false);
    }
    let rows = RowList::new(Vec::new(alloc));
    nodes.insert(node.copy(alloc)?, rows)?;
    Ok(true)
}

/// Puts results at the place of a node, in the place of those that stood there, whose number it gives. It
/// takes no memory.
pub(crate) fn put(nodes: &mut Nodes, node: &Term, rows: RowList) -> u64
    requires { IsSome (place_of nodes.old.entries node.now) }
    ensures put { Updates term_cmp nodes.old nodes.new node.now (Some rows) }
    ensures gone { result ≡ length (rows_in nodes.old.entries node.now) }
    ensures count { length (rows_of_nodes nodes.new.entries) + result
        ≡ length (rows_of_nodes nodes.old.entries) + length rows }
    ensures ordered { IsOrdered term_cmp nodes.old → IsOrdered term_cmp nodes.new }
{
    match nodes.get_mut(node) {
        Some(held) => {
            let gone = held.len();
            *held = rows;
            gone
        }
        None => unreachable!(),
    }
}

/// Takes out the place of a node that has no results. It takes no memory.
pub(crate) fn vacate(nodes: &mut Nodes, node: &Term)
    ensures rows { SameRowsIn nodes.old.entries nodes.new.entries }
    ensures others { SameOtherPlaces node.now nodes.old.entries nodes.new.entries }
    ensures filled { IsFilled nodes.new.entries node.now }
    ensures all { rows_of_nodes nodes.new.entries ≡ rows_of_nodes nodes.old.entries }
    ensures ordered { IsOrdered term_cmp nodes.old → IsOrdered term_cmp nodes.new }
{
    let is_vacant = rows_in(nodes, node).is_empty();
    if is_vacant {
        nodes.remove(node);
    }
}
