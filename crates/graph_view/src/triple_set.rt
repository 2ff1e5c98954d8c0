//! Sets of triples, to which several are added, and from which several are taken.
ghost use Rattle.std.specs.Prelude.{◌≡◌, length, take, OnOk};
ghost use Rattle.std.specs.List.{IsDistinct};
ghost use Rattle.shx_term.specs.Triple.{same_triple};
ghost use Rattle.graph_view.specs.Patched.{without};
ghost use Rattle.shx_term.specs.Members.{SameMembers, Adds};

use indexmap::IndexSet;
use shx_term::{Memory, Triple};

/// Adds the triples behind those that are held. Where it is refused, some of the first may have been added.
pub(crate) fn insert_all(triples: &mut IndexSet<Triple>, added: &[Triple]) -> Result<(), Memory>
    ensures added { OnOk result (Adds triples.old.keys triples.new.keys added.now) }
    ensures front { take (length triples.old.keys) triples.new.keys ≡ triples.old.keys }
{
    for t in added {
        triples.insert(*t)?;
    }
    Ok(())
}

/// Takes the triples out. It takes no memory, and one look-up by hash for each.
pub(crate) fn remove_all(triples: &mut IndexSet<Triple>, removed: &[Triple])
    ensures left { SameMembers triples.new.keys (without same_triple triples.old.keys removed.now) }
    ensures distinct { IsDistinct same_triple triples.new.keys }
{
    for t in removed {
        triples.swap_remove(t);
    }
    let _ = triples.len();
}
