//! A list of results, which a map can hold.
ghost use Rattle.std.specs.Prelude.{◌≡◌, length};

use crate::ResultRow;
use std::marker::Model;

/// The results of a shape at a node, in order. Contracts see a list.
#[derive(Drop)]
pub struct RowList {
    rows: Vec<ResultRow>,
}

impl Model for RowList {
    ghost use Rattle.std.specs.Prelude.{List};
    ghost use Rattle.comp_core.specs.declared.row.ResultRow.{ResultRow};

    ghost Value = { List ResultRow };

    ghost view = { λ a. a.rows.items };
}

impl RowList {
    /// Takes the rows; no memory.
    pub fn new(rows: Vec<ResultRow>) -> RowList
        ensures { result ≡ rows.items }
    {
        RowList { rows }
    }

    /// The rows, in order.
    pub fn as_slice(&self) -> &[ResultRow]
        ensures { result.now ≡ self.now }
    {
        &self.rows
    }

    /// How many rows there are.
    pub fn len(&self) -> u64
        ensures { result ≡ length self.now }
    {
        self.rows.len() as u64
    }
}
