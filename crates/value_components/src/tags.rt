//! Language tags, and the ranges that match them.
ghost use Rattle.std.specs.Prelude.{◌≡◌};
ghost use Rattle.std.specs.Str.{str_eq_ignore_ascii_case};
ghost use Rattle.value_components.specs.Tags.{tag_of, is_narrower, matches_range};
ghost use Rattle.value_components.specs.inner.Told.{told};

use shx_term::{Term, Text};

/// The language tag of a term, if it has one. It takes no memory.
pub(crate) fn tag_of<'a>(term: &'a Term) -> Option<&'a Text>
    ensures { told result ≡ tag_of term.now }
{
    match term {
        Term::Lit(literal) => literal.tag.as_ref(),
        _ => None,
    }
}

/// Whether a range matches a tag. It takes no memory.
pub(crate) fn matches_range(tag: &[u8], range: &[u8]) -> bool
    ensures { result ≡ matches_range tag.now range.now }
{
    range == b"*".as_slice() || is_same_tag(tag, range) || is_narrower(tag, range)
}

// Whether the tag begins with the range and a hyphen.
fn is_narrower(tag: &[u8], range: &[u8]) -> bool
    ensures { result ≡ is_narrower tag.now range.now }
{
    if tag.len() < range.len() {
        return false;
    }
    let (front, behind) = tag.split_at(range.len());
    behind.starts_with(b"-") && is_same_tag(front, range)
}

fn is_same_tag(a: &[u8], b: &[u8]) -> bool
    ensures { result ≡ str_eq_ignore_ascii_case a.now b.now }
{
    a.eq_ignore_ascii_case(b)
}
