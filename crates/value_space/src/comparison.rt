//! When one literal or term is less than another (SPARQL 1.1, section 17.3).
ghost use Rattle.std.specs.Prelude.{◌≡◌, false};
ghost use Rattle.shx_term.specs.WideLiterals.{is_wide};
ghost use Rattle.value_space.specs.Compared.{is_less, is_less_eq, read_as};
ghost use Rattle.value_space.specs.Comparison.{less_of, less_eq_of};

use crate::ReadLiteral;
use shx_term::Literal;

/// Whether a value is less than another; `None` where the two are incomparable, as a number and a text are,
/// or two literals that are ill-typed. It reads both literals; see [`ReadLiteral`] for one that is compared
/// with many.
pub fn less(a: &Literal, b: &Literal) -> Option<bool>
    requires a { is_wide a.now ≡ false }
    requires b { is_wide b.now ≡ false }
    ensures { result ≡ less_of a.now b.now }
{
    ReadLiteral::of(a).less(&ReadLiteral::of(b))
}

/// Whether a value is less than another or equal to it; `None` where the two are incomparable.
pub fn less_eq(a: &Literal, b: &Literal) -> Option<bool>
    requires a { is_wide a.now ≡ false }
    requires b { is_wide b.now ≡ false }
    ensures { result ≡ less_eq_of a.now b.now }
{
    ReadLiteral::of(a).less_eq(&ReadLiteral::of(b))
}

/// Whether a term that was read is less than another: both are literals, and the two are comparable (SHACL,
/// sections 4.3 and 4.5.3). It takes as long as [`ReadLiteral::less`].
pub fn is_less(a: &Option<ReadLiteral>, b: &Option<ReadLiteral>) -> bool
    ensures { result ≡ is_less (read_as a.now) (read_as b.now) }
{
    match (a, b) {
        (Some(a), Some(b)) => a.less(b) == Some(true),
        _ => false,
    }
}

/// Whether a term that was read is less than another or equal to it: both are literals, and the two are
/// comparable (SHACL, sections 4.3 and 4.5.4).
pub fn is_less_eq(a: &Option<ReadLiteral>, b: &Option<ReadLiteral>) -> bool
    ensures { result ≡ is_less_eq (read_as a.now) (read_as b.now) }
{
    match (a, b) {
        (Some(a), Some(b)) => a.less_eq(b) == Some(true),
        _ => false,
    }
}
