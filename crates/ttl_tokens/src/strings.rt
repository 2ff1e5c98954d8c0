ghost use Rattle.std.specs.Prelude.{MatchOption};
ghost use Rattle.std.specs.Str.{chars};
ghost use Rattle.ttl_tokens.specs.Chars.{PastChar, exactly};
ghost use Rattle.ttl_tokens.specs.inner.Groups.{IsNoTokenOf, IsTokenOf};
ghost use Rattle.ttl_tokens.specs.inner.StringForms.{IsQuote, long_rest};
ghost use Rattle.ttl_tokens.specs.Terminals.{block, long_char, short_char, short_string, three_quotes};
ghost use Rattle.ttl_tokens.specs.Walks.{Greedy, Never, Only, Passes};
ghost use Rattle.ttl_tokens.specs.declared.group.Group.TheVariants.{DoubleQuoted, SingleQuoted};

use crate::escapes::escape;
use crate::token::TokenKind;
use crate::walk::{first_char, past_char, two_chars};

/// `STRING_LITERAL_QUOTE` or `STRING_LITERAL_LONG_QUOTE`.
pub(crate) fn double_quoted(text: &str) -> Option<(TokenKind, &str)>
    ensures { MatchOption result (IsNoTokenOf DoubleQuoted (chars text.now))
        (λ t. IsTokenOf DoubleQuoted (chars text.now) t.0 (chars t.1.now)) }
{
    match three_quotes(text, '"') {
        Some(inside) => match long_rest(inside, '"') {
            Some(rest) => Some((TokenKind::StringLongQuote, rest)),
            None => None,
        },
        None => match short_string(text, '"') {
            Some(rest) => Some((TokenKind::StringQuote, rest)),
            None => None,
        },
    }
}

/// `STRING_LITERAL_SINGLE_QUOTE` or `STRING_LITERAL_LONG_SINGLE_QUOTE`.
pub(crate) fn single_quoted(text: &str) -> Option<(TokenKind, &str)>
    ensures { MatchOption result (IsNoTokenOf SingleQuoted (chars text.now))
        (λ t. IsTokenOf SingleQuoted (chars text.now) t.0 (chars t.1.now)) }
{
    match three_quotes(text, '\'') {
        Some(inside) => match long_rest(inside, '\'') {
            Some(rest) => Some((TokenKind::StringLongSingleQuote, rest)),
            None => None,
        },
        None => match short_string(text, '\'') {
            Some(rest) => Some((TokenKind::StringSingleQuote, rest)),
            None => None,
        },
    }
}

fn short_string(text: &str, mark: char) -> Option<&str>
    requires { IsQuote mark }
    ensures { MatchOption result (Never PastChar (short_string mark) (chars text.now))
        (λ rest. Only PastChar (short_string mark) (chars text.now) (chars rest.now)) }
{
    let inside = past_char(text, mark)?;
    let behind = skip_short_chars(inside, mark);
    past_char(behind, mark)
}

fn skip_short_chars(text: &str, mark: char) -> &str
    requires { IsQuote mark }
    ensures { Greedy PastChar (short_char mark) (chars text.now) (chars result.now) }
{
    let mut rest = text;
    while let Some(behind) = short_char(rest, mark) {
        rest = behind;
    }
    rest
}

// A character of a short string, as itself or escaped.
fn short_char(text: &str, mark: char) -> Option<&str>
    requires { IsQuote mark }
    ensures { MatchOption result (Never PastChar (short_char mark) (chars text.now))
        (λ rest. Only PastChar (short_char mark) (chars text.now) (chars rest.now)) }
{
    let (first, rest) = first_char(text)?;
    if first == '\\' {
        escape(text)
    } else if first == mark || first == '\n' || first == '\r' {
        None
    } else {
        Some(rest)
    }
}

// What stands behind the first three quotes of a long string.
fn long_rest(text: &str, mark: char) -> Option<&str>
    requires { IsQuote mark }
    ensures { MatchOption result (Never PastChar (long_rest mark) (chars text.now))
        (λ rest. Only PastChar (long_rest mark) (chars text.now) (chars rest.now)) }
{
    let behind = skip_blocks(text, mark);
    three_quotes(behind, mark)
}

fn skip_blocks(text: &str, mark: char) -> &str
    requires { IsQuote mark }
    ensures { Greedy PastChar (block mark) (chars text.now) (chars result.now) }
{
    let mut rest = text;
    while let Some(behind) = block(rest, mark) {
        rest = behind;
    }
    rest
}

// Up to two quotes and a character.
fn block(text: &str, mark: char) -> Option<&str>
    requires { IsQuote mark }
    ensures { MatchOption result (Never PastChar (block mark) (chars text.now))
        (λ rest. Only PastChar (block mark) (chars text.now) (chars rest.now)) }
{
    let behind_one = skip_quote(text, mark);
    let behind_two = skip_quote(behind_one, mark);
    long_char(behind_two, mark)
}

// Past one quote, where the text begins with it.
fn skip_quote(text: &str, mark: char) -> &str
    ensures { Passes PastChar (exactly mark) (chars text.now) (chars result.now) }
{
    match past_char(text, mark) {
        Some(rest) => rest,
        None => text,
    }
}

// A character of a long string, as itself or escaped.
fn long_char(text: &str, mark: char) -> Option<&str>
    requires { IsQuote mark }
    ensures { MatchOption result (Never PastChar (long_char mark) (chars text.now))
        (λ rest. Only PastChar (long_char mark) (chars text.now) (chars rest.now)) }
{
    let (first, rest) = first_char(text)?;
    if first == '\\' {
        escape(text)
    } else if first == mark {
        None
    } else {
        Some(rest)
    }
}

fn three_quotes(text: &str, mark: char) -> Option<&str>
    ensures { MatchOption result (Never PastChar (three_quotes mark) (chars text.now))
        (λ rest. Only PastChar (three_quotes mark) (chars text.now) (chars rest.now)) }
{
    let behind_one = past_char(text, mark)?;
    two_chars(behind_one, mark, mark)
}
