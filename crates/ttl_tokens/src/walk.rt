ghost use Rattle.std.specs.Prelude.{◌≡◌, [], ◌∷◌, MatchOption};
ghost use Rattle.std.specs.Str.{chars};
ghost use Rattle.ttl_tokens.specs.Chars.{PastChar, exactly};
ghost use Rattle.ttl_tokens.specs.Form.{Then};
ghost use Rattle.ttl_tokens.specs.Walks.{Never, Only};

/// The first character, and the text behind it.
pub(crate) fn first_char(text: &str) -> Option<(char, &str)>
    ensures { MatchOption result (chars text.now ≡ []) (λ r. chars text.now ≡ r.0 ∷ chars r.1.now) }
{
    let mut rest = text.chars();
    let first = rest.next()?;
    Some((first, rest.as_str()))
}

/// The text behind this character, where it begins with it.
pub(crate) fn past_char(text: &str, wanted: char) -> Option<&str>
    ensures { MatchOption result (Never PastChar (exactly wanted) (chars text.now))
        (λ rest. Only PastChar (exactly wanted) (chars text.now) (chars rest.now)) }
{
    match first_char(text) {
        Some((first, rest)) => { if first == wanted { Some(rest) } else { None } }
        None => None,
    }
}

/// Past these two characters, where the text begins with them.
pub(crate) fn two_chars(text: &str, first: char, second: char) -> Option<&str>
    ensures { let form = Then (exactly first) (exactly second) in
        MatchOption result (Never PastChar form (chars text.now))
        (λ rest. Only PastChar form (chars text.now) (chars rest.now)) }
{
    let behind = past_char(text, first)?;
    past_char(behind, second)
}
