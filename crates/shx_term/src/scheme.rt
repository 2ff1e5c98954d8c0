//! Schemes of IRIs.
ghost use Rattle.std.specs.Prelude.{◌≡◌};
ghost use Rattle.std.specs.List.{list_all};
ghost use Rattle.shx_term.specs.Characters.{is_scheme, is_scheme_byte};

/// Whether the text is a scheme: a letter, then letters, digits, `+`, `-` and `.` (RFC 3986, section 3.1).
pub fn is_scheme(text: &[u8]) -> bool
    ensures { result ≡ is_scheme text.now }
{
    match text {
        [first, rest @ ..] => first.is_ascii_alphabetic() && are_scheme_bytes(rest),
        [] => false,
    }
}

fn are_scheme_bytes(bytes: &[u8]) -> bool
    ensures { result ≡ list_all is_scheme_byte bytes.now }
{
    bytes.iter().all(|b| is_scheme_byte(*b))
}

fn is_scheme_byte(byte: u8) -> bool
    ensures { result ≡ is_scheme_byte byte }
{
    byte.is_ascii_alphanumeric() || matches!(byte, b'+' | b'-' | b'.')
}
