ghost use Rattle.std.specs.Prelude.{◌≡◌, ◌↔◌, Contains, IsTrue};
ghost use Rattle.graph_view.specs.declared.key.Key.{Key};
ghost use Rattle.graph_view.specs.Key.{Touches, is_touching, keys_of, key_kind, key_first, key_second};

use shx_term::{Id, Triple};
use std::cmp::Ordering;
use std::hash::{Hash, Hasher};

/// What can be read: a part of a graph, which is the triples of a subject and predicate, of a predicate and
/// object, of a subject, or of a predicate; or what was found of a node at a shape, by their numbers. Of the
/// last a graph knows nothing, and no triple touches it.
#[derive(Clone, Copy, Debug)]
pub enum Key {
    Out(Id, Id),
    In(Id, Id),
    Subject(Id),
    Predicate(Id),
    Answer(u32, Id),
}

fn kind(key: &Key) -> u8
    ensures { result ≡ key_kind key.now }
{
    match key {
        Key::Out(_, _) => 0,
        Key::In(_, _) => 1,
        Key::Subject(_) => 2,
        Key::Predicate(_) => 3,
        Key::Answer(_, _) => 4,
    }
}

fn first(key: &Key) -> Id
    ensures { result ≡ key_first key.now }
{
    match key {
        Key::Out(s, _) => *s,
        Key::In(p, _) => *p,
        Key::Subject(s) => *s,
        Key::Predicate(p) => *p,
        Key::Answer(shape, _) => *shape,
    }
}

fn second(key: &Key) -> Id
    ensures { result ≡ key_second key.now }
{
    match key {
        Key::Out(_, p) => *p,
        Key::In(_, o) => *o,
        Key::Subject(_) => 0,
        Key::Predicate(_) => 0,
        Key::Answer(_, node) => *node,
    }
}

impl PartialEq for Key {
    ghost use Rattle.std.specs.Cmp;
    ghost use Rattle.graph_view.specs.Key.{same_key};
    ghost use Rattle.graph_view.specs.inner.KeyLaws.{same_key_equiv};

    ghost eq = { same_key };

    ghost laws = { Cmp.partial_equiv_from_equiv same_key_equiv };

    fn eq(&self, other: &Self) -> bool {
        kind(self) == kind(other) && first(self) == first(other) && second(self) == second(other)
    }
}

impl Eq for Key {
    ghost use Rattle.graph_view.specs.inner.KeyLaws.{same_key_equiv};

    ghost laws = { same_key_equiv };
}

impl PartialOrd for Key {
    ghost use Rattle.std.specs.Prelude.{Some};
    ghost use Rattle.std.specs.Cmp.{po};
    ghost use Rattle.graph_view.specs.Key.{key_cmp};
    ghost use Rattle.graph_view.specs.inner.KeyLaws.{key_cmp_total, key_cmp_ties};

    ghost partial_cmp = { λ a b. Some (key_cmp a b) };

    ghost laws = { po key_cmp_total key_cmp_ties };

    fn partial_cmp(&self, other: &Self) -> Option<Ordering> {
        Some(self.cmp(other))
    }
}

/// By the kind of part, in the order of the variants, and then by the two numbers.
impl Ord for Key {
    ghost use Rattle.std.specs.Prelude.{refl};
    ghost use Rattle.graph_view.specs.Key.{key_cmp};
    ghost use Rattle.graph_view.specs.inner.KeyLaws.{key_cmp_total, key_cmp_ties};

    ghost cmp = { key_cmp };

    ghost total = { key_cmp_total };

    ghost matches_partial_cmp = { λ a b. refl };

    ghost matches_eq = { key_cmp_ties };

    fn cmp(&self, other: &Self) -> Ordering {
        let by_kind = kind(self).cmp(&kind(other));
        let by_first = first(self).cmp(&first(other));
        let by_second = second(self).cmp(&second(other));
        by_kind.then(by_first.then(by_second))
    }
}

impl Hash for Key {
    ghost use Rattle.std.proofs.Common.{ap};
    ghost use Rattle.graph_view.specs.Key.{key_hash_input};
    ghost use Rattle.graph_view.specs.inner.KeyLaws.{same_key_exact};

    ghost hash_input = { key_hash_input };

    ghost respects_eq = { λ a b h. ap key_hash_input (same_key_exact a b h) };

    fn hash<H: Hasher>(&self, state: &mut H) {
        kind(self).hash(state);
        first(self).hash(state);
        second(self).hash(state);
    }
}

/// Whether the triple is in the part of the graph that the key names. It takes no memory.
pub fn touches(t: &Triple, key: &Key) -> bool
    ensures touches { IsTrue result ↔ Touches t.now key.now }
    ensures test { result ≡ is_touching t.now key.now }
{
    match key {
        Key::Out(s, p) => t.s == *s && t.p == *p,
        Key::In(p, o) => t.p == *p && t.o == *o,
        Key::Subject(s) => t.s == *s,
        Key::Predicate(p) => t.p == *p,
        Key::Answer(_, _) => false,
    }
}

/// The keys that the triple touches, and no others. It takes no memory.
pub fn keys_of(t: &Triple) -> [Key; 4]
    ensures keys { result ≡ keys_of t.now }
    ensures touched { (key : Key) → Contains (keys_of t.now) key ↔ Touches t.now key }
{
    [
        Key::Out(t.s, t.p),
        Key::In(t.p, t.o),
        Key::Subject(t.s),
        Key::Predicate(t.p),
    ]
}
