ghost use Rattle.std.specs.Prelude.{◌≡◌};
ghost use Rattle.triple_store.specs.inner.Arrangement.{HasNumbers, entry_of, triple_at};

use shx_term::{Id, Triple};

/// The numbers of a triple in the order in which an index compares them.
#[derive(Clone, Copy, Debug, PartialEq, Eq, PartialOrd, Ord)]
pub(crate) struct Entry {
    pub(crate) first: Id,
    pub(crate) second: Id,
    pub(crate) third: Id,
}

/// Which of a triple's numbers stands first, second and third in the entries of an index.
#[derive(Clone, Copy, Debug)]
pub(crate) enum Arrangement {
    SubjectPredicateObject,
    PredicateObjectSubject,
    PredicateSubjectObject,
}

impl Entry {
    pub(crate) fn new(first: Id, second: Id, third: Id) -> Entry
        ensures { result ≡ record { first = first; second = second; third = third } }
    {
        Entry {
            first,
            second,
            third,
        }
    }
}

impl Arrangement {
    /// The entry of a triple.
    pub(crate) fn entry(self, t: Triple) -> Entry
        ensures entry { result ≡ entry_of self t }
        ensures numbers { HasNumbers result }
    {
        let Triple { s, p, o } = t;
        let (first, second, third) = match self {
            Arrangement::SubjectPredicateObject => (s, p, o),
            Arrangement::PredicateObjectSubject => (p, o, s),
            Arrangement::PredicateSubjectObject => (p, s, o),
        };
        Entry {
            first,
            second,
            third,
        }
    }

    /// The triple of an entry.
    pub(crate) fn triple(self, entry: &Entry) -> Triple
        ensures { result ≡ triple_at self entry.now }
    {
        let Entry {
            first,
            second,
            third,
        } = *entry;
        let (s, p, o) = match self {
            Arrangement::SubjectPredicateObject => (first, second, third),
            Arrangement::PredicateObjectSubject => (third, first, second),
            Arrangement::PredicateSubjectObject => (second, first, third),
        };
        Triple { s, p, o }
    }
}
