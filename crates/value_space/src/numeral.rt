//! The reader of a number's form, which reads each byte of it once.
ghost use Rattle.std.specs.Prelude.{◌≡◌, ◌*◌, ◌<◌, ◌≤◌, ◌^◌, IfSome, MatchOption, false};
ghost use Rattle.std.proofs.Props.{props};
ghost use Rattle.std.specs.List.{take_while};
ghost use Rattle.shx_term.specs.NumberForm.{is_digit, is_decimal_form};
ghost use Rattle.value_space.specs.inner.DigitRuns.{HasRoom, behind_digits, narrow_number, narrow_fraction};
ghost use Rattle.value_space.specs.inner.DigitRuns.{with_digit, with_place, has_none};

use crate::digits::{digit_value, has_minus, has_point, without_point, without_sign};

/// What a number of 38 digits stays below, divided by ten: one more digit may stand behind a number below
/// this.
const TENTH: u128 = 10_000_000_000_000_000_000_000_000_000_000_000_000;

/// The parts of a number's form. What takes more than 38 digits is none.
#[derive(Clone, Copy)]
pub struct Numeral {
    /// Whether a minus stands first.
    pub negative: bool,

    /// Whether there is a point.
    pub has_point: bool,

    /// The number before the point.
    pub whole: Option<u128>,
    ghost whole_below: { IfSome whole (λ number. number < 10 ^ 38) } by { Prim.hlevel props },

    /// The digits behind the point, in units of 10^-38.
    pub fraction: Option<u128>,
    ghost fraction_below: { IfSome fraction (λ number. number < 10 ^ 38) } by { Prim.hlevel props },
}

impl Numeral {
    ghost use Rattle.value_space.specs.inner.Numerals.{IsNumeral};

    /// The parts of a text that is a sign or none, and then digits with at most one point before, among or
    /// behind them.
    pub fn read(text: &[u8]) -> Option<Self>
        ensures { MatchOption result (is_decimal_form text.now ≡ false) (IsNumeral text.now) }
    {
        let unsigned = without_sign(text);
        let (whole, rest) = read_whole(unsigned);
        let has_point = has_point(rest);
        let (fraction, end) = read_fraction(38, without_point(rest));
        if end.is_empty() && unsigned.len() > usize::from(has_point) {
            Some(Self {
                negative: has_minus(text),
                has_point,
                whole,
                fraction,
            })
        } else {
            None
        }
    }

    /// Whether it takes more than 38 digits before its point, or behind it.
    pub fn is_wide(self) -> bool
        ensures { result ≡ has_none self.whole self.fraction }
    {
        self.whole.is_none() || self.fraction.is_none()
    }
}

/// The number that a text begins with, and what stands behind it. One that takes more than 38 digits is none.
pub fn read_whole(text: &[u8]) -> (Option<u128>, &[u8])
    ensures below { IfSome result.0 (λ number. number < 10 ^ 38) }
    ensures number { result.0 ≡ narrow_number (take_while is_digit text.now) }
    ensures rest { result.1.now ≡ behind_digits text.now }
{
    let mut number = Some(0);
    let mut rest = text;
    while let [digit @ b'0'..=b'9', behind @ ..] = rest {
        number = with_digit(number, digit_value(*digit));
        rest = behind;
    }
    (number, rest)
}

// A digit more behind a number.
fn with_digit(number: Option<u128>, digit: u128) -> Option<u128>
    requires { digit < 10 }
    ensures value { result ≡ with_digit number digit }
    ensures below { IfSome result (λ longer. longer < 10 ^ 38) }
{
    match number {
        Some(number) if number < TENTH => Some(number * 10 + digit),
        _ => None,
    }
}

/// The digits that a text begins with, as a fraction of so many places, and what stands behind them. One that
/// takes more is none.
pub fn read_fraction(places: u32, text: &[u8]) -> (Option<u128>, &[u8])
    requires some { 0 < places }
    requires few { places ≤ 38 }
    ensures below { IfSome result.0 (λ fraction. fraction < 10 ^ 38) }
    ensures fraction { result.0 ≡ narrow_fraction places (take_while is_digit text.now) }
    ensures rest { result.1.now ≡ behind_digits text.now }
{
    let mut fraction = Some(0);
    let mut unit = 10u128.pow(places - 1);
    let mut rest = text;
    while let [digit @ b'0'..=b'9', behind @ ..] = rest {
        fraction = with_place(fraction, unit, digit_value(*digit));
        unit /= 10;
        rest = behind;
    }
    (fraction, rest)
}

// A digit more behind a fraction, of the unit of its place, which is 0 behind the last one.
fn with_place(fraction: Option<u128>, unit: u128, digit: u128) -> Option<u128>
    requires digit { digit < 10 }
    requires room { IfSome fraction (λ fraction. HasRoom fraction (10 * unit)) }
    ensures value { result ≡ with_place fraction unit digit }
    ensures room { IfSome result (λ longer. HasRoom longer unit) }
{
    match fraction {
        Some(fraction) if unit > 0 || digit == 0 => Some(fraction + digit * unit),
        _ => None,
    }
}
