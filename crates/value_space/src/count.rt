//! A count against the number of a literal (SHACL, sections 4.2, 4.4.1, 4.4.2 and 4.7.3).
ghost use Rattle.std.specs.Prelude.{◌≡◌};
ghost use Rattle.shx_term.specs.ValidTriples.{IsNotWide};
ghost use Rattle.value_space.specs.Compared.{read_as};
ghost use Rattle.value_space.specs.Counts.{is_fewer, is_fewer_read, is_more, is_more_read};
ghost use Rattle.value_space.specs.ReadValues.{value_read};

use crate::{ReadLiteral, Value};
use shx_term::Term;
use std::cmp::Ordering;

/// Whether so many are fewer than the number that a term is, whose value was read before; no count is less
/// than what is no number. It takes constant time.
pub fn is_fewer(count: usize, bound: &Term, value: Option<Value>) -> bool
    requires narrow { IsNotWide bound.now }
    requires value { value ≡ value_read bound.now }
    ensures { result ≡ is_fewer count bound.now }
{
    is_fewer_read(count, &ReadLiteral::again(bound, value))
}

/// Whether so many are more than the number that a term is, whose value was read before; no count is more
/// than what is no number. It takes constant time.
pub fn is_more(count: usize, bound: &Term, value: Option<Value>) -> bool
    requires narrow { IsNotWide bound.now }
    requires value { value ≡ value_read bound.now }
    ensures { result ≡ is_more count bound.now }
{
    is_more_read(count, &ReadLiteral::again(bound, value))
}

/// [`is_fewer`] by a term that was read, in constant time.
pub fn is_fewer_read(count: usize, bound: &Option<ReadLiteral>) -> bool
    ensures { result ≡ is_fewer_read count (read_as bound.now) }
{
    match bound {
        Some(bound) => bound.order_of_count(count) == Some(Ordering::Less),
        None => false,
    }
}

/// [`is_more`] by a term that was read, in constant time.
pub fn is_more_read(count: usize, bound: &Option<ReadLiteral>) -> bool
    ensures { result ≡ is_more_read count (read_as bound.now) }
{
    match bound {
        Some(bound) => bound.order_of_count(count) == Some(Ordering::Greater),
        None => false,
    }
}
