ghost use Rattle.std.specs.Prelude.{◌++◌, Contains, IfOk};
ghost use Rattle.shx_term.specs.InOrder.{Lists};
ghost use Rattle.graph_view.specs.Key.{key_cmp};
ghost use Rattle.read_records.specs.inner.Touched.{IsTouchedKey};

use graph_view::{Key, keys_of};
use shx_term::{Memory, Triple};
use std::alloc::Global;

/// The keys that one of these triples touches, in order and each once.
pub(crate) fn touched_keys(
    alloc: Global,
    added: &[Triple],
    removed: &[Triple],
) -> Result<Vec<Key>, Memory>
    ensures { IfOk result (λ keys. Lists key_cmp (IsTouchedKey (added.now ++ removed.now)) keys.items) }
{
    let mut keys = Vec::new(alloc);
    for t in added.iter().chain(removed) {
        keys.extend_from_slice(&keys_of(t))?;
    }
    keys.sort_unstable();
    keys.dedup();
    Ok(keys)
}
