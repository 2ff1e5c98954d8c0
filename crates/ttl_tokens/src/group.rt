ghost use Rattle.std.specs.Prelude.{◌≡◌};
ghost use Rattle.ttl_tokens.specs.inner.Groups.{char_group};

use crate::classes::is_name_start;

/// The terminals by the character that they begin with.
#[derive(Clone, Copy, Debug, PartialEq, Eq)]
pub(crate) enum Group {
    /// numbers and the dot
    Number,
    /// prefixed names and words
    Name,
    DoubleQuoted,
    SingleQuoted,
    /// IRI references
    Angle,
    /// language tags
    At,
    /// labels of blank nodes
    Underscore,
    Caret,
    /// `[` and ANON
    Square,
    /// the other marks, each of one character
    Mark,
    /// with which no terminal begins
    Other,
}

/// The group of the terminals that may begin with a character.
pub(crate) fn group_of(c: char) -> Group
    ensures { result ≡ char_group c }
{
    match c {
        '0'..='9' | '+' | '-' | '.' => Group::Number,
        ':' => Group::Name,
        '"' => Group::DoubleQuoted,
        '\'' => Group::SingleQuoted,
        '<' => Group::Angle,
        '@' => Group::At,
        '_' => Group::Underscore,
        '^' => Group::Caret,
        '[' => Group::Square,
        ';' | ',' | ']' | '(' | ')' => Group::Mark,
        _ if is_name_start(c) => Group::Name,
        _ => Group::Other,
    }
}
