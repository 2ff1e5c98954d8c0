//! Signs, points and digits of lexical forms.
ghost use Rattle.std.specs.Prelude.{◌≡◌, ◌-◌, ◌&&◌, false, MatchOption};
ghost use Rattle.shx_term.specs.NumberForm.{is_digit, is_minus, is_sign, is_point, begins_with};
ghost use Rattle.shx_term.specs.NumberForm.{without_first};
ghost use Rattle.value_space.specs.inner.MomentParts.{IsTwoDigits};

/// Whether a minus stands first.
pub fn has_minus(text: &[u8]) -> bool
    ensures { result ≡ begins_with is_minus text.now }
{
    matches!(text, [b'-', ..])
}

/// Whether a point stands first.
pub fn has_point(text: &[u8]) -> bool
    ensures { result ≡ begins_with is_point text.now }
{
    matches!(text, [b'.', ..])
}

/// What stands behind a minus, or all where there is none.
pub fn without_minus(text: &[u8]) -> &[u8]
    ensures { result.now ≡ without_first is_minus text.now }
{
    match text {
        [b'-', rest @ ..] => rest,
        _ => text,
    }
}

/// What stands behind a point, or all where there is none.
pub fn without_point(text: &[u8]) -> &[u8]
    ensures { result.now ≡ without_first is_point text.now }
{
    match text {
        [b'.', rest @ ..] => rest,
        _ => text,
    }
}

/// What stands behind a sign, or all where there is none.
pub fn without_sign(text: &[u8]) -> &[u8]
    ensures { result.now ≡ without_first is_sign text.now }
{
    match text {
        [b'+' | b'-', rest @ ..] => rest,
        _ => text,
    }
}

/// Whether the byte is a digit.
pub fn is_digit(byte: u8) -> bool
    ensures { result ≡ is_digit byte }
{
    byte.is_ascii_digit()
}

/// The number of two digits.
pub fn two_digits(tens: u8, ones: u8) -> Option<u8>
    ensures { MatchOption result ((is_digit tens && is_digit ones) ≡ false) (IsTwoDigits tens ones) }
{
    if is_digit(tens) && is_digit(ones) {
        Some((tens - b'0') * 10 + (ones - b'0'))
    } else {
        None
    }
}

/// The value of a digit; a byte below them counts as 0.
pub fn digit_value(digit: u8) -> u128
    ensures { result ≡ digit - 48 }
{
    u128::from(digit.saturating_sub(b'0'))
}
