//! Results as components give them (SHACL, section 3.6.2).
ghost use Rattle.std.specs.Prelude.{◌≡◌, ◌++◌, OnOk};
ghost use Rattle.comp_core.specs.Results.{once_if, unless, resting_on};

use crate::{At, Details, Kind, ResultRow};
use shx_term::{Id, Memory};
use std::alloc::Global;

/// Appends one result without a value, where it is so.
pub fn add_once_if(
    alloc: Global,
    is_so: bool,
    kind: Kind,
    at: At,
    out: &mut Vec<ResultRow>,
) -> Result<(), Memory>
    ensures { OnOk result (out.new.items ≡ out.old.items ++ once_if is_so kind at) }
{
    if is_so {
        out.push(ResultRow::plain(alloc, at.focus, None, None, at.shape, kind)?)?;
    }
    Ok(())
}

/// Appends a result at a value node, unless the node is as it should be.
pub fn add_unless(
    alloc: Global,
    is_fine: bool,
    kind: Kind,
    at: At,
    node: Id,
    out: &mut Vec<ResultRow>,
) -> Result<(), Memory>
    ensures { OnOk result (out.new.items ≡ out.old.items ++ unless is_fine kind at node) }
{
    if !is_fine {
        out.push(ResultRow::plain(alloc, at.focus, Some(node), None, at.shape, kind)?)?;
    }
    Ok(())
}

/// Appends a result at a value node that rests on these, unless there are none.
pub fn add_resting_on(
    alloc: Global,
    found: &[ResultRow],
    kind: Kind,
    at: At,
    node: Id,
    out: &mut Vec<ResultRow>,
) -> Result<(), Memory>
    ensures { OnOk result (out.new.items ≡ out.old.items ++ resting_on found.now kind at node) }
{
    if !found.is_empty() {
        out.push(ResultRow {
            focus: at.focus,
            value: Some(node),
            predicate: None,
            shape: at.shape,
            kind,
            details: Details::of(alloc, found)?,
        })?;
    }
    Ok(())
}

/// Appends copies of results.
pub fn add_copies(alloc: Global, rows: &[ResultRow], out: &mut Vec<ResultRow>) -> Result<(), Memory>
    ensures { OnOk result (out.new.items ≡ out.old.items ++ rows.now) }
{
    for row in rows {
        out.push(row.copy(alloc)?)?;
    }
    Ok(())
}
