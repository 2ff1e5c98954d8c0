ghost use Rattle.std.specs.Prelude.{◌≡◌, ◌==◌, ◌<◌};
ghost use Rattle.std.specs.List.{before_first};
ghost use Rattle.std.specs.Option.{option_copied};
ghost use Rattle.iri_resolve.specs.Characters.{is_slash};
ghost use Rattle.iri_resolve.specs.Parts.{parts_of, part_after, scheme_of, without_scheme};
ghost use Rattle.iri_resolve.specs.Parts.{authority_of, path_of, from_first};

use shx_term::is_scheme;

/// A reference split into its parts (RFC 3986, section 3 and appendix B). A part that is there may be empty.
#[derive(Clone, Copy, Debug)]
pub struct Reference<'a> {
    pub scheme: Option<&'a str>,
    pub authority: Option<&'a str>,
    pub path: &'a str,
    pub query: Option<&'a str>,
    pub fragment: Option<&'a str>,
}

impl<'a> Reference<'a> {
    ghost use Rattle.iri_resolve.specs.Reference.{parts_in};

    /// The parts of a text. A colon ends a scheme only where what it follows is one; else it is part of the
    /// rest. It takes no memory, and time linear in the text.
    pub fn split(text: &'a str) -> Reference<'a>
        ensures { parts_in result ≡ parts_of text.now }
    {
        let (identifier, fragment) = cut(text, '#');
        let (hierarchy, query) = cut(identifier, '?');
        let (scheme, rest) = cut_scheme(hierarchy);
        let (authority, path) = cut_authority(rest);
        Reference {
            scheme,
            authority,
            path,
            query,
            fragment,
        }
    }
}

// What stands before the first of this character, and what stands behind it where it is there.
fn cut(text: &str, mark: char) -> (&str, Option<&str>)
    requires { mark < 128 }
    ensures before { result.0.now ≡ before_first (λ b. b == mark) text.now }
    ensures after { option_copied result.1 ≡ part_after (λ b. b == mark) text.now }
{
    match text.split_once(mark) {
        Some((before, after)) => (before, Some(after)),
        None => (text, None),
    }
}

// The scheme of a text without query and fragment, and what follows its colon; all where there is no scheme.
fn cut_scheme(text: &str) -> (Option<&str>, &str)
    ensures scheme { option_copied result.0 ≡ scheme_of text.now }
    ensures rest { result.1.now ≡ without_scheme text.now }
{
    let Some((front, rest)) = text.split_once(':') else {
        return (None, text);
    };
    if is_scheme(front.as_bytes()) {
        (Some(front), rest)
    } else {
        (None, text)
    }
}

// The authority of a text without scheme, query and fragment, and its path.
fn cut_authority(text: &str) -> (Option<&str>, &str)
    ensures authority { option_copied result.0 ≡ authority_of text.now }
    ensures path { result.1.now ≡ path_of text.now }
{
    match text.strip_prefix("//") {
        Some(rest) => {
            let (authority, path) = cut_before_slash(rest);
            (Some(authority), path)
        }
        None => (None, text),
    }
}

// What stands before the first slash, and the rest from that slash on.
fn cut_before_slash(text: &str) -> (&str, &str)
    ensures before { result.0.now ≡ before_first is_slash text.now }
    ensures rest { result.1.now ≡ from_first is_slash text.now }
{
    let (before, _) = cut(text, '/');
    text.split_at(before.len())
}
