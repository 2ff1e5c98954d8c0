ghost use Rattle.std.specs.Prelude.{◌≡◌, IfOk};
ghost use Rattle.comp_core.specs.Rows.{detail_of, plain_row};

use crate::{DetailRow, Details, Kind, ShapeNo};
use shx_term::{Id, Memory};
use std::alloc::Global;

/// A result (SHACL, section 3.6.2): where, with which value, at which predicate, of which constraint, and on
/// what it rests.
#[derive(Debug, PartialEq, Eq)]
pub struct ResultRow {
    pub focus: Id,
    pub value: Option<Id>,
    pub predicate: Option<Id>,
    pub shape: ShapeNo,
    pub kind: Kind,
    pub details: Details,
}

impl Drop for ResultRow {
    fn drop(self) {
        let ResultRow {
            focus: _focus,
            value: _value,
            predicate: _predicate,
            shape: _shape,
            kind: _kind,
            details: _details,
        } = self;
    }
}

impl ResultRow {
    /// A result that rests on no other. It takes no memory.
    pub fn plain(
        alloc: Global,
        focus: Id,
        value: Option<Id>,
        predicate: Option<Id>,
        shape: ShapeNo,
        kind: Kind,
    ) -> Result<ResultRow, Memory>
        ensures { IfOk result (λ row. row ≡ plain_row focus value predicate shape kind) }
    {
        Ok(ResultRow {
            focus,
            value,
            predicate,
            shape,
            kind,
            details: Details::none(alloc),
        })
    }

    /// What it is when another result rests on it.
    pub fn without_details(&self) -> DetailRow
        ensures { result ≡ detail_of self.now }
    {
        DetailRow {
            focus: self.focus,
            value: self.value,
            predicate: self.predicate,
            shape: self.shape,
            kind: self.kind,
        }
    }

    /// An equal result. Without details it takes no memory.
    pub fn copy(&self, alloc: Global) -> Result<ResultRow, Memory>
        ensures { IfOk result (λ row. row ≡ self.now) }
    {
        Ok(ResultRow {
            focus: self.focus,
            value: self.value,
            predicate: self.predicate,
            shape: self.shape,
            kind: self.kind,
            details: self.details.copy(alloc)?,
        })
    }
}
