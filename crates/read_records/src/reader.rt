ghost use Rattle.std.specs.Prelude.{◌≡◌};
ghost use Rattle.read_records.specs.Reader.{reader_kind, reader_shape, reader_node};

use comp_core::{Pair, ShapeNo};
use shx_term::Id;
use std::cmp::Ordering;

/// What reads a graph: the search for the target nodes of a shape, or the check of a pair.
#[derive(Clone, Copy, Debug)]
pub enum Reader {
    OfTarget(ShapeNo),
    OfPair(Pair),
}

fn kind(reader: &Reader) -> u8
    ensures { result ≡ reader_kind reader.now }
{
    match reader {
        Reader::OfTarget(_) => 0,
        Reader::OfPair(_) => 1,
    }
}

fn shape(reader: &Reader) -> ShapeNo
    ensures { result ≡ reader_shape reader.now }
{
    match reader {
        Reader::OfTarget(shape) => *shape,
        Reader::OfPair(pair) => pair.shape,
    }
}

fn node(reader: &Reader) -> Id
    ensures { result ≡ reader_node reader.now }
{
    match reader {
        Reader::OfTarget(_) => 0,
        Reader::OfPair(pair) => pair.node,
    }
}

impl PartialEq for Reader {
    ghost use Rattle.std.specs.Cmp;
    ghost use Rattle.read_records.specs.Reader.{same_reader};
    ghost use Rattle.read_records.specs.inner.ReaderLaws.{same_reader_equiv};

    ghost eq = { same_reader };

    ghost laws = { Cmp.partial_equiv_from_equiv same_reader_equiv };

    fn eq(&self, other: &Self) -> bool {
        kind(self) == kind(other) && shape(self) == shape(other) && node(self) == node(other)
    }
}

impl Eq for Reader {
    ghost use Rattle.read_records.specs.inner.ReaderLaws.{same_reader_equiv};

    ghost laws = { same_reader_equiv };
}

impl PartialOrd for Reader {
    ghost use Rattle.std.specs.Prelude.{Some};
    ghost use Rattle.std.specs.Cmp.{po};
    ghost use Rattle.read_records.specs.Reader.{reader_cmp};
    ghost use Rattle.read_records.specs.inner.ReaderLaws.{reader_cmp_total, reader_cmp_ties};

    ghost partial_cmp = { λ a b. Some (reader_cmp a b) };

    ghost laws = { po reader_cmp_total reader_cmp_ties };

    fn partial_cmp(&self, other: &Self) -> Option<Ordering> {
        Some(self.cmp(other))
    }
}

/// First targets by the numbers of their shapes, and then pairs, by the numbers of shape and node.
impl Ord for Reader {
    ghost use Rattle.std.specs.Prelude.{refl};
    ghost use Rattle.read_records.specs.Reader.{reader_cmp};
    ghost use Rattle.read_records.specs.inner.ReaderLaws.{reader_cmp_total, reader_cmp_ties};

    ghost cmp = { reader_cmp };

    ghost total = { reader_cmp_total };

    ghost matches_partial_cmp = { λ a b. refl };

    ghost matches_eq = { reader_cmp_ties };

    fn cmp(&self, other: &Self) -> Ordering {
        let by_kind = kind(self).cmp(&kind(other));
        let by_shape = shape(self).cmp(&shape(other));
        let by_node = node(self).cmp(&node(other));
        by_kind.then(by_shape.then(by_node))
    }
}
