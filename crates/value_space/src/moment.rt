//! Moments and days by their lexical forms (XML Schema 1.1 part 2, sections 3.3.7 and 3.3.9). A moment is
//! counted in nanoseconds from 1970-01-01T00:00:00; each call reads each byte of the text once.
ghost use Rattle.std.specs.Prelude.{◌≡◌, ◌<◌, ◌^◌, false, not, ◌&&◌, ◌==◌, IfSome, IsSome};
ghost use Rattle.jiff.specs.Words.{IsYear, epoch_day};
ghost use Rattle.shx_term.specs.Datatypes.Space.{Moments, Days};
ghost use Rattle.shx_term.specs.WideLiterals.{is_wide_in};
ghost use Rattle.value_space.specs.inner.DigitRuns.{signed};
ghost use Rattle.value_space.specs.Values.{value_in};
ghost use Rattle.value_space.specs.Moments.{is_date, day_number, is_time};
ghost use Rattle.value_space.specs.inner.MomentParts.{some_where, day_in_nanos, date_at, time_at, IsSmall};

use crate::Value;
use crate::moment_text::{DateText, DayText, MomentText};
use crate::zone::zone_nanos;
use jiff::civil::{Date, date};

/// Nanoseconds in a second.
const SECOND: i128 = 1_000_000_000;

/// Whether the text is a day of a year of more than four digits.
pub fn is_wide_day(text: &[u8]) -> bool
    ensures { result ≡ is_wide_in Days text.now }
{
    match DayText::read(text) {
        Some(day) => day.date.year.is_none(),
        None => false,
    }
}

/// Whether the text is a moment of a year of more than four digits, or of a fraction of more than nine.
pub fn is_wide_moment(text: &[u8]) -> bool
    ensures { result ≡ is_wide_in Moments text.now }
{
    match MomentText::read(text) {
        Some(moment) => moment.date.year.is_none() || moment.nanos.is_none(),
        None => false,
    }
}

/// The value of a moment.
pub fn moment_value(text: &[u8]) -> Value
    requires { is_wide_in Moments text.now ≡ false }
    ensures { result ≡ value_in Moments text.now }
{
    let Some(moment) = MomentText::read(text) else {
        return Value::IllTyped;
    };
    let Some(day) = date_nanos(moment.date) else {
        return Value::IllTyped;
    };
    let Some(time) = time_nanos(moment) else {
        return Value::IllTyped;
    };
    Value::Stamp {
        nanos: day + time - zone_nanos(moment.zone),
        zoned: moment.zoned,
    }
}

/// The value of a day.
pub fn day_value(text: &[u8]) -> Value
    requires { is_wide_in Days text.now ≡ false }
    ensures { result ≡ value_in Days text.now }
{
    let Some(day) = DayText::read(text) else {
        return Value::IllTyped;
    };
    match date_nanos(day.date) {
        Some(nanos) => Value::Day {
            nanos: nanos - zone_nanos(day.zone),
            zoned: day.zoned,
        },
        None => Value::IllTyped,
    }
}

// The nanoseconds of the first moment of a date, where the calendar has it.
fn date_nanos(date: DateText) -> Option<i128>
    requires { IsSome date.year }
    ensures value { IfSome date.year (λ year. result ≡ date_at date.negative year date.month date.day) }
    ensures small { IfSome result (λ n. IsSmall n) }
{
    let year = year_of(date)?;
    civil_nanos(year, date.month, date.day)
}

// The year of a date: 0000 is the one before 0001, and there is no -0000.
fn year_of(date: DateText) -> Option<i16>
    requires { IsSome date.year }
    ensures value { IfSome date.year (λ year.
        result ≡ some_where (not (date.negative && (year == 0))) (signed date.negative year)) }
    ensures range { IfSome result (λ year. IsYear year) }
{
    let Some(year) = date.year else {
        unreachable!()
    };
    let year = year as i16;
    if !date.negative {
        Some(year)
    } else if year == 0 {
        None
    } else {
        Some(-year)
    }
}

// The nanoseconds from 1970-01-01 to a date, where the calendar has it.
fn civil_nanos(year: i16, month: u8, day: u8) -> Option<i128>
    requires year { IsYear year }
    requires month { month < 100 }
    requires day { day < 100 }
    ensures value { result ≡ some_where (is_date year month day) (day_in_nanos (day_number year month day)) }
    ensures small { IfSome result (λ n. IsSmall n) }
{
    match Date::new(year, month as i8, day as i8) {
        Ok(civil) => Some(nanos_at(civil)),
        Err(_) => None,
    }
}

// The nanoseconds from 1970-01-01 to a date.
fn nanos_at(civil: Date) -> i128
    ensures value { result ≡ day_in_nanos (epoch_day civil) }
    ensures small { IsSmall result }
{
    civil.duration_since(date(1970, 1, 1)).as_nanos()
}

// The nanoseconds from midnight to the time of a moment, where a day has it.
fn time_nanos(moment: MomentText) -> Option<i128>
    requires { IsSome moment.nanos }
    ensures value { IfSome moment.nanos (λ nanos.
        result ≡ time_at moment.hour moment.minute moment.second nanos) }
    ensures small { IfSome result (λ n. IsSmall n) }
{
    let Some(nanos) = moment.nanos else {
        unreachable!()
    };
    clock_nanos(moment.hour, moment.minute, moment.second, nanos)
}

fn clock_nanos(hour: u8, minute: u8, second: u8, nanos: u32) -> Option<i128>
    requires { nanos < 10 ^ 9 }
    ensures value { result ≡ time_at hour minute second nanos }
    ensures small { IfSome result (λ n. IsSmall n) }
{
    if !is_time(hour, minute, second, nanos) {
        return None;
    }
    let seconds = i128::from(hour) * 3600 + i128::from(minute) * 60 + i128::from(second);
    Some(seconds * SECOND + i128::from(nanos))
}

// Whether it is a time from 00:00:00 to 23:59:59, or 24:00:00 without a fraction.
fn is_time(hour: u8, minute: u8, second: u8, nanos: u32) -> bool
    ensures { result ≡ is_time hour minute second nanos }
{
    hour <= 23 && minute <= 59 && second <= 59
        || hour == 24 && minute == 0 && second == 0 && nanos == 0
}
