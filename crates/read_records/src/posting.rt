ghost use Rattle.std.specs.Prelude.{◌≡◌};
ghost use Rattle.read_records.specs.inner.Postings.{HasNumbers, place, posting, whom};

use crate::Reader;
use comp_core::ShapeNo;
use graph_view::Key;
use shx_term::Id;

/// The numbers of a key, of whichever kind it is: a key of one number has 0 as its second.
#[derive(Clone, Copy, Debug, PartialEq, Eq, PartialOrd, Ord)]
pub(crate) struct Place {
    pub(crate) first: Id,
    pub(crate) second: Id,
}

/// The numbers of a reader, of whichever kind it is: a target has 0 as its node.
#[derive(Clone, Copy, Debug, PartialEq, Eq, PartialOrd, Ord)]
pub(crate) struct Whom {
    pub(crate) shape: ShapeNo,
    pub(crate) node: Id,
}

/// A key and one of its readers. Of which kinds they are is known where it stands.
#[derive(Clone, Copy, Debug, PartialEq, Eq, PartialOrd, Ord)]
pub(crate) struct Posting {
    pub(crate) place: Place,
    pub(crate) whom: Whom,
}

impl Posting {
    pub(crate) fn new(place: Place, whom: Whom) -> Posting
        ensures posting { result ≡ posting place whom }
        ensures numbers { HasNumbers result }
    {
        Posting { place, whom }
    }
}

pub(crate) fn place_of(key: &Key) -> Place
    ensures { result ≡ place key.now }
{
    match key {
        Key::Out(s, p) => Place {
            first: *s,
            second: *p,
        },
        Key::In(p, o) => Place {
            first: *p,
            second: *o,
        },
        Key::Subject(s) => Place {
            first: *s,
            second: 0,
        },
        Key::Predicate(p) => Place {
            first: *p,
            second: 0,
        },
        Key::Answer(shape, node) => Place {
            first: *shape,
            second: *node,
        },
    }
}

pub(crate) fn whom_of(reader: &Reader) -> Whom
    ensures { result ≡ whom reader.now }
{
    match reader {
        Reader::OfTarget(shape) => Whom {
            shape: *shape,
            node: 0,
        },
        Reader::OfPair(pair) => Whom {
            shape: pair.shape,
            node: pair.node,
        },
    }
}
