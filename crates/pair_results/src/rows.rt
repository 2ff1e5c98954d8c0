ghost use Rattle.std.specs.Prelude.{◌≡◌, ◌<◌, [], All, length, flat_map, OnSome, IfNone};
ghost use Rattle.pair_results.specs.PairResults.{rows_of_nodes};
ghost use Rattle.pair_results.specs.inner.ToCome.{nodes_at, to_come, turns_left};

use crate::nodes::Nodes;
use comp_core::{ResultRow, RowList, ShapeNo};
use shx_term::Term;
use std::collections::btree_map::Values;
use std::marker::Model;

/// Results, shape by shape, and of each shape by the terms of the nodes. Contracts see those that are to
/// come.
#[derive(Drop)]
pub struct Rows<'a> {
    ahead: Ahead<'a>,
}

/// What is to come.
#[derive(Drop)]
struct Ahead<'a> {
    all: &'a [Nodes],
    /// The shapes that are to come.
    shapes: &'a [ShapeNo],
    /// Of the shape at hand, the nodes that are to come.
    nodes: Option<Values<'a, Term, RowList>>,
    /// Of the node at hand, the results that are to come.
    rows: &'a [ResultRow],
}

impl<'a> Model for Rows<'a> {
    ghost use Rattle.std.specs.Prelude.{List, ◌<◌, length, All};
    ghost use Rattle.comp_core.specs.declared.row.ResultRow.{ResultRow};
    ghost use Rattle.pair_results.specs.inner.ToCome.{to_come};

    ghost Value = { List ResultRow };

    ghost view = { λ a. to_come a.ahead.all.now a.ahead.shapes.now a.ahead.nodes a.ahead.rows.now };

    ghost invariant = { λ a. All (λ shape. shape < length a.ahead.all.now) a.ahead.shapes.now };
}

impl<'a> Rows<'a> {
    pub(crate) fn new(all: &'a [Nodes], shapes: &'a [ShapeNo]) -> Rows<'a>
        requires { All (λ shape. shape < length all.now) shapes.now }
        ensures { result ≡ flat_map (λ shape. rows_of_nodes (nodes_at all.now shape)) shapes.now }
    {
        Rows {
            ahead: Ahead {
                all,
                shapes,
                nodes: None,
                rows: &[],
            },
        }
    }
}

impl<'a> Ahead<'a> {
    /// Goes on to the next node, of the next shape where the one at hand has none left. There is none behind
    /// the last shape.
    fn turn(&mut self) -> Option<()>
        requires rows { self.old.rows.now ≡ [] }
        requires shapes { All (λ shape. shape < length self.old.all.now) self.old.shapes.now }
        ensures shapes { All (λ shape. shape < length self.new.all.now) self.new.shapes.now }
        ensures same { to_come self.new.all.now self.new.shapes.now self.new.nodes self.new.rows.now
            ≡ to_come self.old.all.now self.old.shapes.now self.old.nodes self.old.rows.now }
        ensures turns { OnSome result (turns_left self.new.all.now self.new.shapes.now self.new.nodes
            < turns_left self.old.all.now self.old.shapes.now self.old.nodes) }
        ensures none { IfNone result
            (to_come self.new.all.now self.new.shapes.now self.new.nodes self.new.rows.now ≡ []) }
    {
        if let Some(nodes) = &mut self.nodes
            && let Some(rows) = nodes.next()
        {
            self.rows = rows.as_slice();
            return Some(());
        }
        let (shape, others) = self.shapes.split_first()?;
        self.nodes = Some(self.all[*shape as usize].values());
        self.shapes = others;
        Some(())
    }
}

impl<'a> Iterator for Rows<'a> {
    ghost use Rattle.std.specs.Iterator.{YieldsFirstRef, item_count};

    type Item = &'a ResultRow;

    ghost next_gives = { YieldsFirstRef (λ rows. rows) };

    ghost remaining = { item_count (λ rows. rows) };

    fn next(&mut self) -> Option<&'a ResultRow> {
        while self.ahead.rows.is_empty() {
            self.ahead.turn()?;
        }
        let (first, others) = self.ahead.rows.split_first()?;
        self.ahead.rows = others;
        Some(first)
    }
}
