//! What a result rests on (SHACL, section 3.6.2.6).
ghost use Rattle.std.specs.Prelude.{◌≡◌, [], map, IfOk};
ghost use Rattle.comp_core.specs.Rows.{detail_of};

use crate::{Kind, ResultRow, ShapeNo};
use shx_term::{Id, Memory};
use std::alloc::Global;
use std::marker::Model;

/// A result on which another one rests, without those on which it rests itself.
#[derive(Clone, Copy, Debug)]
pub struct DetailRow {
    pub focus: Id,
    pub value: Option<Id>,
    pub predicate: Option<Id>,
    pub shape: ShapeNo,
    pub kind: Kind,
}

/// The results on which a result rests, in order. Contracts see a list.
#[derive(Debug, Drop)]
pub struct Details {
    rows: Vec<DetailRow>,
}

impl Model for Details {
    ghost use Rattle.std.specs.Prelude.{List};
    ghost use Rattle.comp_core.specs.declared.detail.DetailRow.{DetailRow};

    ghost Value = { List DetailRow };

    ghost view = { λ a. a.rows.items };
}

impl Details {
    /// None. It takes no memory.
    pub fn none(alloc: Global) -> Details
        ensures { result ≡ [] }
    {
        Details {
            rows: Vec::new(alloc),
        }
    }

    /// These results, each without those on which it rests.
    pub fn of(alloc: Global, rows: &[ResultRow]) -> Result<Details, Memory>
        ensures { IfOk result (λ details. details ≡ map detail_of rows.now) }
    {
        let mut details = Vec::new(alloc);
        for row in rows {
            details.push(row.without_details())?;
        }
        Ok(Details { rows: details })
    }

    /// In order, as a slice. It takes no memory.
    pub fn as_slice(&self) -> &[DetailRow]
        ensures { result.now ≡ self.now }
    {
        &self.rows
    }

    /// Equal details.
    pub fn copy(&self, alloc: Global) -> Result<Details, Memory>
        ensures { IfOk result (λ copy. copy ≡ self.now) }
    {
        let mut rows = Vec::new(alloc);
        for row in &self.rows {
            rows.push(*row)?;
        }
        Ok(Details { rows })
    }
}

impl PartialEq for DetailRow {
    ghost use Rattle.std.specs.Cmp;
    ghost use Rattle.comp_core.specs.Details.{same_detail, same_detail_equiv};

    ghost eq = { same_detail };

    ghost laws = { Cmp.partial_equiv_from_equiv same_detail_equiv };

    fn eq(&self, other: &Self) -> bool {
        self.focus == other.focus
            && self.value == other.value
            && self.predicate == other.predicate
            && self.shape == other.shape
            && self.kind == other.kind
    }
}

impl Eq for DetailRow {
    ghost use Rattle.comp_core.specs.Details.{same_detail_equiv};

    ghost laws = { same_detail_equiv };
}

impl PartialEq for Details {
    ghost use Rattle.std.specs.Cmp;
    ghost use Rattle.comp_core.specs.Details.{same_details, same_details_equiv};

    ghost eq = { same_details };

    ghost laws = { Cmp.partial_equiv_from_equiv same_details_equiv };

    fn eq(&self, other: &Self) -> bool {
        self.rows == other.rows
    }
}

impl Eq for Details {
    ghost use Rattle.comp_core.specs.Details.{same_details_equiv};

    ghost laws = { same_details_equiv };
}
