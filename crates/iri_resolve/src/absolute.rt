ghost use Rattle.std.specs.Prelude.{◌≡◌, ◌↔◌, IsTrue};
ghost use Rattle.std.specs.List.{list_all};
ghost use Rattle.iri_resolve.specs.Characters.{is_allowed, is_allowed_byte};
ghost use Rattle.iri_resolve.specs.Resolution.{IsAbsolute};

use crate::Reference;

/// Whether the text is an absolute IRI: a scheme, a colon, and characters that an IRI may hold. It takes no
/// memory, and time linear in the text.
pub fn is_absolute(text: &str) -> bool
    ensures { IsTrue result ↔ IsAbsolute text.now }
{
    Reference::split(text).scheme.is_some() && is_allowed(text)
}

/// Whether every character of the text may stand in an IRI reference (Turtle 1.1, section 6.5, IRIREF).
pub(crate) fn is_allowed(text: &str) -> bool
    ensures { result ≡ is_allowed text.now }
{
    text.as_bytes().iter().all(|b| is_allowed_byte(*b))
}

fn is_allowed_byte(byte: u8) -> bool
    ensures { result ≡ is_allowed_byte byte }
{
    b' ' < byte
        && !matches!(
            byte,
            b'<' | b'>' | b'"' | b'{' | b'}' | b'|' | b'^' | b'\\' | b'`'
        )
}
