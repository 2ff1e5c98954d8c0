//! The readers of the forms of moments and days (XML Schema 1.1 part 2, sections 3.3.7 and 3.3.9), which read
//! each byte of them once.
ghost use Rattle.std.specs.Prelude.{◌≡◌, ◌<◌, ◌^◌, IfSome, MatchOption, false};
ghost use Rattle.std.proofs.Props.{props};
ghost use Rattle.shx_term.specs.MomentForm.{has_good_fraction, is_day_form, is_moment_form};
ghost use Rattle.value_space.specs.inner.MomentParts.{has_year, IsYearText, has_calendar, IsCalendar};
ghost use Rattle.value_space.specs.inner.MomentParts.{has_clock, IsClock, IsNanos, has_date_text};

use crate::digits::{has_minus, has_point, two_digits, without_minus, without_point};
use crate::numeral::{read_fraction, read_whole};
use crate::zone::read_zone;

/// What is read of year, month and day.
#[derive(Clone, Copy)]
pub struct DateText {
    /// Whether a minus stands first.
    pub negative: bool,

    /// The number behind it, where it has four digits; one of more digits is none.
    pub year: Option<u16>,
    ghost year_below: { IfSome year (λ year. year < 10 ^ 4) } by { Prim.hlevel props },

    /// The number of the month.
    pub month: u8,
    ghost month_below: { month < 100 } by { Prim.hlevel props },

    /// The number of the day.
    pub day: u8,
    ghost day_below: { day < 100 } by { Prim.hlevel props },
}

/// The parts of the form of a day.
#[derive(Clone, Copy)]
pub struct DayText {
    /// Year, month and day.
    pub date: DateText,

    /// Whether there is a zone.
    pub zoned: bool,

    /// Its minutes, 0 where there is none.
    pub zone: i16,
}

/// The parts of the form of a moment.
#[derive(Clone, Copy)]
pub struct MomentText {
    /// Year, month and day.
    pub date: DateText,

    /// The number of hours.
    pub hour: u8,

    /// The number of minutes.
    pub minute: u8,

    /// The number of whole seconds.
    pub second: u8,

    /// The fraction of a second, where it has at most nine digits, zeros at its end aside.
    pub nanos: Option<u32>,
    ghost nanos_below: { IfSome nanos (λ nanos. nanos < 10 ^ 9) } by { Prim.hlevel props },

    /// Whether there is a zone.
    pub zoned: bool,

    /// Its minutes, 0 where there is none.
    pub zone: i16,
}

impl DateText {
    ghost use Rattle.value_space.specs.inner.MomentTexts.{IsDateText};

    // Year, month and day, and what stands behind them.
    fn read(text: &[u8]) -> Option<(Self, &[u8])>
        ensures { MatchOption result (has_date_text text.now ≡ false) (λ read.
            IsDateText text.now read.0 read.1.now) }
    {
        let (year, rest) = read_year(without_minus(text))?;
        let (month, day, end) = read_calendar(rest)?;
        let date = Self {
            negative: has_minus(text),
            year,
            month,
            day,
        };
        Some((date, end))
    }
}

impl DayText {
    ghost use Rattle.value_space.specs.inner.MomentTexts.{IsDayText};

    /// The parts of a day.
    pub fn read(text: &[u8]) -> Option<Self>
        ensures { MatchOption result (is_day_form text.now ≡ false) (IsDayText text.now) }
    {
        let (date, end) = DateText::read(text)?;
        Some(Self {
            date,
            zoned: !end.is_empty(),
            zone: read_zone(end)?,
        })
    }
}

impl MomentText {
    ghost use Rattle.value_space.specs.inner.MomentTexts.{IsMomentText};

    /// The parts of a moment.
    pub fn read(text: &[u8]) -> Option<Self>
        ensures { MatchOption result (is_moment_form text.now ≡ false) (IsMomentText text.now) }
    {
        let (date, rest) = DateText::read(text)?;
        let (hour, minute, second, end) = read_clock(rest)?;
        let (nanos, zone) = read_nanos(end)?;
        Some(Self {
            date,
            hour,
            minute,
            second,
            nanos,
            zoned: !zone.is_empty(),
            zone: read_zone(zone)?,
        })
    }
}

// The year that a text begins with, of four digits or more, and what stands behind it.
fn read_year(text: &[u8]) -> Option<(Option<u16>, &[u8])>
    ensures { MatchOption result (has_year text.now ≡ false) (λ read. IsYearText text.now read.0 read.1.now) }
{
    let (number, rest) = read_whole(text);
    let digits = text.len() - rest.len();
    if digits < 4 {
        return None;
    }
    match number {
        Some(number) if digits == 4 => Some((Some(number as u16), rest)),
        _ => Some((None, rest)),
    }
}

// Month and day, and what stands behind them.
fn read_calendar(text: &[u8]) -> Option<(u8, u8, &[u8])>
    ensures { MatchOption result (has_calendar text.now ≡ false) (λ read.
        IsCalendar text.now read.0 read.1 read.2.now) }
{
    let [b'-', a, b, b'-', c, d, rest @ ..] = text else {
        return None;
    };
    Some((two_digits(*a, *b)?, two_digits(*c, *d)?, rest))
}

// Hour, minute and second, and what stands behind them.
fn read_clock(text: &[u8]) -> Option<(u8, u8, u8, &[u8])>
    ensures { MatchOption result (has_clock text.now ≡ false) (λ read.
        IsClock text.now read.0 read.1 read.2 read.3.now) }
{
    let [b'T', a, b, b':', c, d, b':', e, f, rest @ ..] = text else {
        return None;
    };
    let hour = two_digits(*a, *b)?;
    let minute = two_digits(*c, *d)?;
    let second = two_digits(*e, *f)?;
    Some((hour, minute, second, rest))
}

// The nanoseconds of a fraction, or of none, and what stands behind it.
fn read_nanos(text: &[u8]) -> Option<(Option<u32>, &[u8])>
    ensures { MatchOption result (has_good_fraction text.now ≡ false) (λ read.
        IsNanos text.now read.0 read.1.now) }
{
    if !has_point(text) {
        return Some((Some(0), text));
    }
    let digits = without_point(text);
    let (fraction, rest) = read_fraction(9, digits);
    if rest.len() == digits.len() {
        return None;
    }
    match fraction {
        Some(nanos) => Some((Some(nanos as u32), rest)),
        None => Some((None, rest)),
    }
}
