//! Numbers by their lexical forms (XML Schema 1.1 part 2, sections 3.3.3 and 3.4.13). Each call reads each
//! byte of the text once.
ghost use Rattle.std.specs.Prelude.{◌≡◌, None, IsSome, IfSome, false};
ghost use Rattle.shx_term.specs.WideLiterals.{is_wide_in};
ghost use Rattle.shx_term.specs.Datatypes.Space.{Integers, Decimals};
ghost use Rattle.value_space.specs.inner.DigitRuns.{signed, number_from};
ghost use Rattle.value_space.specs.Values.{is_from, is_up_to, value_in};

use crate::Value;
use crate::numeral::Numeral;

/// Whether the text is an integer of more than 38 digits.
pub fn is_wide_integer(text: &[u8]) -> bool
    ensures { result ≡ is_wide_in (Integers None None) text.now }
{
    match Numeral::read(text) {
        Some(numeral) => !numeral.has_point && numeral.is_wide(),
        None => false,
    }
}

/// Whether the text is a decimal of more than 38 digits before its point, or behind it.
pub fn is_wide_decimal(text: &[u8]) -> bool
    ensures { result ≡ is_wide_in Decimals text.now }
{
    match Numeral::read(text) {
        Some(numeral) => numeral.is_wide(),
        None => false,
    }
}

/// The value of an integer from a least to a greatest one, where there are such.
pub fn integer_value(text: &[u8], least: Option<i128>, greatest: Option<i128>) -> Value
    requires { is_wide_in (Integers least greatest) text.now ≡ false }
    ensures { result ≡ value_in (Integers least greatest) text.now }
{
    let Some(numeral) = Numeral::read(text) else {
        return Value::IllTyped;
    };
    if numeral.has_point {
        return Value::IllTyped;
    }
    let number = integer_of(numeral);
    if is_from(least, number) && is_up_to(greatest, number) {
        number_value(numeral)
    } else {
        Value::IllTyped
    }
}

/// The value of a decimal.
pub fn decimal_value(text: &[u8]) -> Value
    requires { is_wide_in Decimals text.now ≡ false }
    ensures { result ≡ value_in Decimals text.now }
{
    match Numeral::read(text) {
        Some(numeral) => number_value(numeral),
        None => Value::IllTyped,
    }
}

fn is_from(least: Option<i128>, number: i128) -> bool
    ensures { result ≡ is_from least number }
{
    match least {
        Some(least) => least <= number,
        None => true,
    }
}

fn is_up_to(greatest: Option<i128>, number: i128) -> bool
    ensures { result ≡ is_up_to greatest number }
{
    match greatest {
        Some(greatest) => number <= greatest,
        None => true,
    }
}

// The number of a form without a point.
fn integer_of(numeral: Numeral) -> i128
    requires { IsSome numeral.whole }
    ensures { IfSome numeral.whole (λ whole. result ≡ signed numeral.negative whole) }
{
    let Some(whole) = numeral.whole else {
        unreachable!()
    };
    let whole = whole as i128;
    if numeral.negative { -whole } else { whole }
}

// The parts that a value keeps. Zero is never negative.
fn number_value(numeral: Numeral) -> Value
    requires whole { IsSome numeral.whole }
    requires fraction { IsSome numeral.fraction }
    ensures { IfSome numeral.whole (λ whole. IfSome numeral.fraction (λ fraction.
        result ≡ number_from numeral.negative whole fraction)) }
{
    let (Some(whole), Some(fraction)) = (numeral.whole, numeral.fraction) else {
        unreachable!()
    };
    Value::Num {
        negative: numeral.negative && !(whole == 0 && fraction == 0),
        whole,
        fraction,
    }
}
