//! Which of some triples touch a key.
ghost use Rattle.std.specs.Prelude.{◌≡◌, map, length, IfOk};
ghost use Rattle.graph_view.specs.Key.{look};

use crate::{Key, touches};
use shx_term::{Id, Memory, Triple};
use std::alloc::Global;

/// The triples that touch the key, in the order of the list, in one pass over it.
pub fn triples_among(alloc: Global, triples: &[Triple], key: &Key) -> Result<Vec<Triple>, Memory>
    ensures { IfOk result (λ found. found.items ≡ look triples.now key.now) }
{
    triples
        .iter()
        .filter(|t| touches(t, key))
        .copied()
        .collect(alloc)
}

/// The objects of those triples, with repeats.
pub fn objects_among(alloc: Global, triples: &[Triple], key: &Key) -> Result<Vec<Id>, Memory>
    ensures { IfOk result (λ found. found.items ≡ map (λ t. t.o) (look triples.now key.now)) }
{
    triples
        .iter()
        .filter(|t| touches(t, key))
        .map(|t| t.o)
        .collect(alloc)
}

/// The subjects of those triples, with repeats.
pub fn subjects_among(alloc: Global, triples: &[Triple], key: &Key) -> Result<Vec<Id>, Memory>
    ensures { IfOk result (λ found. found.items ≡ map (λ t. t.s) (look triples.now key.now)) }
{
    triples
        .iter()
        .filter(|t| touches(t, key))
        .map(|t| t.s)
        .collect(alloc)
}

/// How many triples touch the key, in one pass over them. It takes no memory.
pub(crate) fn count_among(triples: &[Triple], key: &Key) -> u64
    ensures { result ≡ length (look triples.now key.now) }
{
    triples.iter().filter(|t| touches(t, key)).count() as u64
}
