//! A plan of one shape without constraints.
ghost use Rattle.std.specs.Prelude.{◌≤◌, IfOk, length};
ghost use Rattle.report_rows.specs.Bare.{IsBare};

use path_eval::{LaidPath, Path};
use row_tools::RowFault;
use shape_eval::{Plan, PlanShape};
use shx_term::vocabulary::{RDF_FIRST, SH_IN, SH_NODE_SHAPE, SH_VIOLATION, VOCABULARY_LEN};
use shx_term::{Memory, Pool};
use std::alloc::Global;

// A property shape with a path and a message, all of the vocabulary.
fn shape(alloc: Global, pool: &Pool) -> Result<PlanShape, Memory>
    requires { 62 ≤ length pool.now.terms }
    ensures { IfOk result (IsBare pool.now.terms) }
{
    let messages = vec![in alloc; SH_IN]?;
    let path = LaidPath::new(alloc, Path::Pred(RDF_FIRST))?;
    Ok(PlanShape {
        node: SH_NODE_SHAPE,
        path: Some(path),
        severity: SH_VIOLATION,
        messages,
        deactivated: false,
        targets: Vec::new(alloc),
        constraints: Vec::new(alloc),
    })
}

/// The plan of this shape alone, over a pool that has the vocabulary.
pub(super) fn plan(alloc: Global, pool: &Pool) -> Result<Plan, RowFault> {
    if pool.len() < VOCABULARY_LEN {
        return Err(RowFault::Unread);
    }
    let shapes = vec![in alloc; shape(alloc, pool)?]?;
    Ok(Plan::from_shapes(alloc, shapes, pool)?)
}
