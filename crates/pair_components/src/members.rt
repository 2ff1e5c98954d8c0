//! Nodes that are among others, or are not.
ghost use Rattle.std.specs.Prelude.{◌≡◌, ◌++◌, not, if◌then◌else◌, OnOk};
ghost use Rattle.comp_core.specs.Results.{each_unless};
ghost use Rattle.comp_core.specs.TermTests.{is_among};

use comp_core::{At, Kind, Lookup, ResultRow, add_unless};
use shx_term::{Id, Memory};
use std::alloc::Global;

/// Appends a result for each node that is not among the others, where it should be, or is among them, where
/// it should not. The others are looked up, and none is compared with every node.
pub(crate) fn check_members(
    alloc: Global,
    others: &[Id],
    should_be: bool,
    kind: Kind,
    at: At,
    nodes: &[Id],
    out: &mut Vec<ResultRow>,
) -> Result<(), Memory>
    ensures { OnOk result (out.new.items ≡ out.old.items ++ each_unless
        (λ v. if should_be then is_among v others.now else not (is_among v others.now)) kind at nodes.now) }
{
    let lookup = Lookup::new(alloc, others)?;
    for v in nodes {
        let is_fine = lookup.has(*v) == should_be;
        add_unless(alloc, is_fine, kind, at, *v, out)?;
    }
    Ok(())
}
