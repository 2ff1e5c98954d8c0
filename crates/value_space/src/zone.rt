//! The zone behind a moment or a day (XML Schema 1.1 part 2, section 3.3.7): none, `Z`, or a sign, hours and
//! minutes.
ghost use Rattle.std.specs.Prelude.{◌≡◌, ◌*ℤ◌, pos, false, IfSome, MatchOption};
ghost use Rattle.shx_term.specs.MomentForm.{is_zone, is_offset_time};
ghost use Rattle.value_space.specs.inner.MomentParts.{is_offset_of, IsOffset, IsZoneText, IsFew, IsSmall};

use crate::digits::two_digits;

/// The minutes by which the clock of a zone is ahead of Greenwich: 0 where the text is empty.
pub fn read_zone(text: &[u8]) -> Option<i16>
    ensures zone { MatchOption result (is_zone text.now ≡ false) (IsZoneText text.now) }
    ensures few { IfSome result (λ minutes. IsFew minutes) }
{
    match text {
        [] | [b'Z'] => Some(0),
        [b'+', a, b, b':', c, d] => read_offset(*a, *b, *c, *d),
        [b'-', a, b, b':', c, d] => Some(-read_offset(*a, *b, *c, *d)?),
        _ => None,
    }
}

// The minutes of an offset, by the digits of its hours and minutes.
fn read_offset(a: u8, b: u8, c: u8, d: u8) -> Option<i16>
    ensures { MatchOption result (is_offset_of a b c d ≡ false) (IsOffset a b c d) }
{
    let hours = two_digits(a, b)?;
    let minutes = two_digits(c, d)?;
    if is_offset_time(hours, minutes) {
        Some(i16::from(hours) * 60 + i16::from(minutes))
    } else {
        None
    }
}

fn is_offset_time(hours: u8, minutes: u8) -> bool
    ensures { result ≡ is_offset_time hours minutes }
{
    hours <= 13 && minutes <= 59 || hours == 14 && minutes == 0
}

/// The nanoseconds of the minutes of a zone.
pub fn zone_nanos(minutes: i16) -> i128
    ensures value { result ≡ minutes *ℤ pos 60_000_000_000 }
    ensures small { IsSmall result }
{
    i128::from(minutes) * 60_000_000_000
}
