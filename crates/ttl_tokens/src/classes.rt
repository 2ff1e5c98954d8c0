ghost use Rattle.std.specs.Prelude.{◌≡◌, ◌||◌, ◌==◌};
ghost use Rattle.ttl_tokens.specs.Chars.{is_digit, is_hex, is_high_name_start, is_letter};
ghost use Rattle.ttl_tokens.specs.Chars.{is_low_name_start, is_line_end, is_name_char, is_name_start};
ghost use Rattle.ttl_tokens.specs.Chars.{is_name_start_or_line, is_white};
ghost use Rattle.ttl_tokens.specs.Terminals.{is_local_escaped};

/// White space.
pub(crate) fn is_white(c: char) -> bool
    ensures { result ≡ is_white c }
{
    matches!(c, ' ' | '\t' | '\r' | '\n')
}

/// What ends a comment.
pub(crate) fn is_line_end(c: char) -> bool
    ensures { result ≡ is_line_end c }
{
    c == '\r' || c == '\n'
}

fn is_letter(c: char) -> bool
    ensures { result ≡ is_letter c }
{
    matches!(c, 'A'..='Z' | 'a'..='z')
}

fn is_digit(c: char) -> bool
    ensures { result ≡ is_digit c }
{
    matches!(c, '0'..='9')
}

/// A digit of a hexadecimal number.
pub(crate) fn is_hex(c: char) -> bool
    ensures { result ≡ is_hex c }
{
    matches!(c, '0'..='9' | 'A'..='F' | 'a'..='f')
}

// Those below U+2070 that a name may begin with, but for the letters of ASCII.
fn is_low_name_start(c: char) -> bool
    ensures { result ≡ is_low_name_start c }
{
    matches!(
        c,
        '\u{c0}'..='\u{d6}'
            | '\u{d8}'..='\u{f6}'
            | '\u{f8}'..='\u{2ff}'
            | '\u{370}'..='\u{37d}'
            | '\u{37f}'..='\u{1fff}'
            | '\u{200c}'..='\u{200d}'
    )
}

// Those from U+2070 that a name may begin with.
fn is_high_name_start(c: char) -> bool
    ensures { result ≡ is_high_name_start c }
{
    matches!(
        c,
        '\u{2070}'..='\u{218f}'
            | '\u{2c00}'..='\u{2fef}'
            | '\u{3001}'..='\u{d7ff}'
            | '\u{f900}'..='\u{fdcf}'
            | '\u{fdf0}'..='\u{fffd}'
            | '\u{10000}'..='\u{effff}'
    )
}

/// PN_CHARS_BASE
pub(crate) fn is_name_start(c: char) -> bool
    ensures { result ≡ is_name_start c }
{
    is_letter(c) || is_low_name_start(c) || is_high_name_start(c)
}

// PN_CHARS_U
fn is_name_start_or_line(c: char) -> bool
    ensures { result ≡ is_name_start_or_line c }
{
    is_name_start(c) || c == '_'
}

/// PN_CHARS
pub(crate) fn is_name_char(c: char) -> bool
    ensures { result ≡ is_name_char c }
{
    is_name_start_or_line(c)
        || c == '-'
        || is_digit(c)
        || c == '\u{b7}'
        || matches!(c, '\u{300}'..='\u{36f}')
        || matches!(c, '\u{203f}'..='\u{2040}')
}

/// The first character of a label.
pub(crate) fn is_label_start(c: char) -> bool
    ensures { result ≡ is_name_start_or_line c || is_digit c }
{
    is_name_start_or_line(c) || is_digit(c)
}

/// The first character of a local name.
pub(crate) fn is_local_start(c: char) -> bool
    ensures { result ≡ is_name_start_or_line c || (c == 58) || is_digit c }
{
    is_name_start_or_line(c) || c == ':' || is_digit(c)
}

/// What a local name may hold behind its first character, but for dots and escapes.
pub(crate) fn is_local_char(c: char) -> bool
    ensures { result ≡ is_name_char c || (c == 58) }
{
    is_name_char(c) || c == ':'
}

/// What may follow a backslash in a local name.
pub(crate) fn is_local_escaped(c: char) -> bool
    ensures { result ≡ is_local_escaped c }
{
    matches!(
        c,
        '_' | '~' | '.' | '-' | '!' | '$' | '&'..=',' | ';' | '=' | '/' | '?' | '#' | '@' | '%'
    )
}
