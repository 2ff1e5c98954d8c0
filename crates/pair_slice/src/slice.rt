ghost use Rattle.std.specs.Prelude.{◌≡◌, map, IfOk};
ghost use Rattle.shx_term.specs.declared.triple.Triple.{Triple};
ghost use Rattle.pair_slice.specs.Slice.{slice_triples};
ghost use Rattle.pair_slice.specs.inner.Touched.{touched};

use graph_view::{GraphView, Key, Notes, Reads, Unnoted};
use shx_term::{Id, Memory, Triple};
use std::alloc::Global;
use std::marker::Model;

/// The triples of a graph that touch some keys. Contracts see a list.
#[derive(Drop)]
pub struct Slice {
    triples: Vec<Triple>,
}

impl Model for Slice {
    ghost use Rattle.std.specs.Prelude.{List};
    ghost use Rattle.shx_term.specs.declared.triple.Triple.{Triple};

    ghost Value = { List Triple };

    ghost view = { λ a. a.triples.items };
}

impl Slice {
    /// The triples, by subject, predicate and object in term order. It takes no memory.
    pub fn triples(&self) -> &[Triple]
        ensures { result.now ≡ self.now }
    {
        &self.triples
    }
}

/// The triples of a graph that touch one of the keys, each once. It takes a look-up for each key, and time
/// `O(n log n)` in what is found.
pub fn slice_of<V: GraphView>(alloc: Global, view: &V, reads: &Reads) -> Result<Slice, Memory>
    ensures { IfOk result (λ slice. slice ≡ slice_triples (V.graph view.now) reads.now) }
{
    let mut found = Vec::new(alloc);
    for key in reads.keys() {
        found.extend_from_slice(&touching(alloc, view, key)?)?;
    }
    let triples = view.pool().triples_in_order(found);
    Ok(Slice { triples })
}

// The triples that touch a key.
fn touching<V: GraphView>(alloc: Global, view: &V, key: &Key) -> Result<Vec<Triple>, Memory>
    ensures { IfOk result (λ found. found.items ≡ touched (V.graph view.now) key.now) }
{
    let mut unnoted = Unnoted::new(alloc);
    match *key {
        Key::Out(s, p) => with_objects(alloc, s, p, &view.objects(alloc, s, p, &mut unnoted)?),
        Key::In(p, o) => with_subjects(alloc, p, o, &view.subjects(alloc, p, o, &mut unnoted)?),
        Key::Subject(s) => view.triples_of(alloc, s, &mut unnoted),
        Key::Predicate(p) => view.triples_with(alloc, p, &mut unnoted),
        Key::Answer(_, _) => Ok(Vec::new(alloc)),
    }
}

// A subject and a predicate with each of some objects.
fn with_objects(alloc: Global, s: Id, p: Id, objects: &[Id]) -> Result<Vec<Triple>, Memory>
    ensures { IfOk result (λ found. found.items ≡ map (λ o. record { s = s; p = p; o = o }) objects.now) }
{
    objects
        .iter()
        .map(|o| Triple { s, p, o: *o })
        .collect(alloc)
}

// Each of some subjects with a predicate and an object.
fn with_subjects(alloc: Global, p: Id, o: Id, subjects: &[Id]) -> Result<Vec<Triple>, Memory>
    ensures { IfOk result (λ found. found.items ≡ map (λ s. record { s = s; p = p; o = o }) subjects.now) }
{
    subjects
        .iter()
        .map(|s| Triple { s: *s, p, o })
        .collect(alloc)
}
