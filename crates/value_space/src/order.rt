//! The order of values, where they have one (SPARQL 1.1, section 17.3).
ghost use Rattle.std.specs.Prelude.{◌≡◌, ◌<◌, ◌^◌, ◌*◌, ◌+◌};
ghost use Rattle.std.specs.Ordering.{nat_cmp};
ghost use Rattle.value_space.specs.declared.value.Value.TheVariants.{Num};
ghost use Rattle.value_space.specs.Numbers.{units};
ghost use Rattle.value_space.specs.inner.Canonical.{IsCanonical};
ghost use Rattle.value_space.specs.Comparison.{order_of_values, int_order, truth_order, moment_order};
ghost use Rattle.value_space.specs.Comparison.{zoned_order, unzoned_order};

use crate::Value;
use std::cmp::Ordering;

/// The greatest offset of a zone, in nanoseconds.
const FOURTEEN_HOURS: i128 = 50_400_000_000_000;

/// A number by its sign, its whole part, and its fraction in units of 10^-38.
#[derive(Clone, Copy)]
struct Number {
    negative: bool,
    whole: u128,
    fraction: u128,
}

/// A moment in nanoseconds, and whether it has a zone.
#[derive(Clone, Copy)]
struct Moment {
    nanos: i128,
    zoned: bool,
}

/// The order of two literals with these texts and values, where they have one.
pub fn order_of_values(s: &str, t: &str, a: Value, b: Value) -> Option<Ordering>
    requires a { IsCanonical a }
    requires b { IsCanonical b }
    ensures { result ≡ order_of_values s.now t.now a b }
{
    match (a, b) {
        (
            Value::Num {
                negative,
                whole,
                fraction,
            },
            Value::Num {
                negative: negative_b,
                whole: whole_b,
                fraction: fraction_b,
            },
        ) => Some(number_order(
            Number {
                negative,
                whole,
                fraction,
            },
            Number {
                negative: negative_b,
                whole: whole_b,
                fraction: fraction_b,
            },
        )),
        (Value::Text, Value::Text) => Some(s.cmp(t)),
        (Value::Bool(a), Value::Bool(b)) => Some(truth_order(a, b)),
        (
            Value::Stamp { nanos, zoned },
            Value::Stamp {
                nanos: nanos_b,
                zoned: zoned_b,
            },
        ) => moment_order(
            Moment { nanos, zoned },
            Moment {
                nanos: nanos_b,
                zoned: zoned_b,
            },
        ),
        (
            Value::Day { nanos, zoned },
            Value::Day {
                nanos: nanos_b,
                zoned: zoned_b,
            },
        ) => moment_order(
            Moment { nanos, zoned },
            Moment {
                nanos: nanos_b,
                zoned: zoned_b,
            },
        ),
        _ => None,
    }
}

fn number_order(a: Number, b: Number) -> Ordering
    requires a { IsCanonical (Num a.negative a.whole a.fraction) }
    requires b { IsCanonical (Num b.negative b.whole b.fraction) }
    ensures { result ≡ int_order (units a.negative a.whole a.fraction) (units b.negative b.whole b.fraction) }
{
    match (a.negative, b.negative) {
        (false, false) => magnitude_order(a, b),
        (true, true) => magnitude_order(b, a),
        (false, true) => Ordering::Greater,
        (true, false) => Ordering::Less,
    }
}

// The order of two numbers without their signs.
fn magnitude_order(a: Number, b: Number) -> Ordering
    requires a { a.fraction < 10 ^ 38 }
    requires b { b.fraction < 10 ^ 38 }
    ensures { result ≡ nat_cmp (a.whole * 10 ^ 38 + a.fraction) (b.whole * 10 ^ 38 + b.fraction) }
{
    match a.whole.cmp(&b.whole) {
        Ordering::Equal => a.fraction.cmp(&b.fraction),
        order => order,
    }
}

// False is below true.
fn truth_order(a: bool, b: bool) -> Ordering
    ensures { result ≡ truth_order a b }
{
    match (a, b) {
        (false, true) => Ordering::Less,
        (true, false) => Ordering::Greater,
        _ => Ordering::Equal,
    }
}

// A moment without a zone may lie in any zone, up to fourteen hours ahead or behind.
fn moment_order(a: Moment, b: Moment) -> Option<Ordering>
    ensures { result ≡ moment_order a.nanos a.zoned b.nanos b.zoned }
{
    match (a.zoned, b.zoned) {
        (true, false) => zoned_order(a.nanos, b.nanos),
        (false, true) => unzoned_order(a.nanos, b.nanos),
        _ => Some(nanos_order(a.nanos, b.nanos)),
    }
}

fn nanos_order(a: i128, b: i128) -> Ordering
    ensures { result ≡ int_order a b }
{
    if a < b {
        Ordering::Less
    } else if b < a {
        Ordering::Greater
    } else {
        Ordering::Equal
    }
}

// A moment with a zone against one without.
fn zoned_order(zoned: i128, unzoned: i128) -> Option<Ordering>
    ensures { result ≡ zoned_order zoned unzoned }
{
    if zoned < unzoned.saturating_sub(FOURTEEN_HOURS) {
        Some(Ordering::Less)
    } else if unzoned.saturating_add(FOURTEEN_HOURS) < zoned {
        Some(Ordering::Greater)
    } else {
        None
    }
}

// A moment without a zone against one with.
fn unzoned_order(unzoned: i128, zoned: i128) -> Option<Ordering>
    ensures { result ≡ unzoned_order unzoned zoned }
{
    if unzoned.saturating_add(FOURTEEN_HOURS) < zoned {
        Some(Ordering::Less)
    } else if zoned < unzoned.saturating_sub(FOURTEEN_HOURS) {
        Some(Ordering::Greater)
    } else {
        None
    }
}
