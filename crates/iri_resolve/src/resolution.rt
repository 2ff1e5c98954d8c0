ghost use Rattle.std.specs.Prelude.{◌≡◌, ◌↔◌, true, false, ◌++◌, string_bytes, codes, IfOk, IfErr, OnOk};
ghost use Rattle.std.specs.Option.{option_copied};
ghost use Rattle.iri_resolve.specs.declared.fault.IriFault.{IriFault};
ghost use Rattle.iri_resolve.specs.Characters.{is_allowed};
ghost use Rattle.iri_resolve.specs.DotSegments.{without_dot_segments};
ghost use Rattle.iri_resolve.specs.Parts.{with_front, with_back, written};
ghost use Rattle.iri_resolve.specs.Reference.{parts_in};
ghost use Rattle.iri_resolve.specs.inner.Walk.{is_rooted};
ghost use Rattle.iri_resolve.specs.Resolution.{IsAbsolute, resolved, merged_path, target_path, target_query};
ghost use Rattle.iri_resolve.specs.Resolution.{target_of};

use crate::absolute::is_allowed;
use crate::dot_segments::{push_directories, push_segments, push_without_dots};
use crate::{IriFault, Reference};
use shx_term::IriText;
use std::alloc::{AllocError, Global};

/// What a reference stands for over an absolute base (RFC 3986, section 5.2). A reference with a scheme
/// stands for itself, as it is written, and a fragment of the base is not used. It takes time and memory
/// linear in the base and the reference together.
///
/// # Errors
///
/// `NotAllowed` where the reference has a character that may not stand in an IRI, and `Memory` where an
/// allocation is refused.
pub fn resolve(alloc: Global, base: &IriText, reference: &str) -> Result<IriText, IriFault>
    requires { IsAbsolute base.now }
    ensures resolved { IfOk result (λ iri. iri ≡ resolved base.now reference.now) }
    ensures absolute { IfOk result IsAbsolute }

    // `NotAllowed` comes exactly where a character of the reference is not allowed.
    ensures refused { IfErr result (λ fault.
        (fault ≡ IriFault.NotAllowed) ↔ (is_allowed reference.now ≡ false)) }
    ensures allowed { OnOk result (is_allowed reference.now ≡ true) }
{
    if !is_allowed(reference) {
        return Err(IriFault::NotAllowed);
    }
    let text = target(alloc, base.as_str(), reference)?;
    Ok(IriText::new(text))
}

// The text of what a reference stands for.
fn target(alloc: Global, base: &str, reference: &str) -> Result<String, AllocError>
    ensures { IfOk result (λ text. string_bytes text ≡ resolved base.now reference.now) }
{
    let parts = Reference::split(reference);
    if parts.scheme.is_some() {
        return String::from_str(alloc, reference);
    }
    let mut out = String::with_capacity(alloc, base.len() + reference.len())?;
    push_target(&mut out, &Reference::split(base), &parts)?;
    Ok(out)
}

// Writes the target of a reference without scheme (RFC 3986, section 5.3).
fn push_target(
    out: &mut String,
    base: &Reference<'_>,
    reference: &Reference<'_>,
) -> Result<(), AllocError>
    ensures { OnOk result
        (string_bytes out.new
        ≡ string_bytes out.old ++ written (target_of (parts_in base.now) (parts_in reference.now))) }
{
    push_scheme(out, base.scheme)?;
    if reference.authority.is_some() {
        push_with_authority(out, reference)?;
    } else {
        push_over_base(out, base, reference)?;
    }
    push_part(out, "#", reference.fragment)
}

// Writes the authority, the path and the query of a reference that has an authority.
fn push_with_authority(out: &mut String, reference: &Reference<'_>) -> Result<(), AllocError>
    ensures { OnOk result
        (string_bytes out.new
        ≡ string_bytes out.old
        ++ (with_front (codes "//") (parts_in reference.now).authority
        ++ (without_dot_segments (parts_in reference.now).path
        ++ with_front (codes "?") (parts_in reference.now).query))) }
{
    push_part(out, "//", reference.authority)?;
    push_without_dots(out, reference.path)?;
    push_part(out, "?", reference.query)
}

// Writes the authority, the path and the query of a reference that has no authority of its own.
fn push_over_base(
    out: &mut String,
    base: &Reference<'_>,
    reference: &Reference<'_>,
) -> Result<(), AllocError>
    ensures { OnOk result
        (string_bytes out.new
        ≡ string_bytes out.old
        ++ (with_front (codes "//") (parts_in base.now).authority
        ++ (target_path (parts_in base.now) (parts_in reference.now).path
        ++ with_front (codes "?")
        (target_query (parts_in base.now).query
        (parts_in reference.now).path (parts_in reference.now).query)))) }
{
    push_part(out, "//", base.authority)?;
    push_path(out, base, reference.path)?;
    let query = target_query(base.query, reference.path, reference.query);
    push_part(out, "?", query)
}

fn push_scheme(out: &mut String, scheme: Option<&str>) -> Result<(), AllocError>
    ensures { OnOk result
        (string_bytes out.new ≡ string_bytes out.old ++ with_back (option_copied scheme.entry) (codes ":")) }
{
    if let Some(scheme) = scheme {
        out.push_str(scheme)?;
        out.push_str(":")?;
    }
    Ok(())
}

// Writes a part with what stands before it, where it is there.
fn push_part(out: &mut String, front: &str, part: Option<&str>) -> Result<(), AllocError>
    ensures { OnOk result
        (string_bytes out.new ≡ string_bytes out.old ++ with_front front.now (option_copied part.entry)) }
{
    if let Some(part) = part {
        out.push_str(front)?;
        out.push_str(part)?;
    }
    Ok(())
}

// The query of a reference without authority: that of the base only where the reference has neither path nor
// query.
fn target_query<'a>(base: Option<&'a str>, path: &str, query: Option<&'a str>) -> Option<&'a str>
    ensures { option_copied result
        ≡ target_query (option_copied base.entry) path.now (option_copied query.entry) }
{
    if path.is_empty() && query.is_none() {
        return base;
    }
    query
}

// Writes the path of a reference without authority.
fn push_path(out: &mut String, base: &Reference<'_>, path: &str) -> Result<(), AllocError>
    ensures { OnOk result
        (string_bytes out.new ≡ string_bytes out.old ++ target_path (parts_in base.now) path.now) }
{
    match path.as_bytes() {
        [] => out.push_str(base.path),
        [b'/', ..] => push_without_dots(out, path),
        _ => push_merged(out, base, path),
    }
}

// Writes a relative path merged with that of the base (section 5.2.3), without its dot segments.
fn push_merged(out: &mut String, base: &Reference<'_>, path: &str) -> Result<(), AllocError>
    ensures { OnOk result
        (string_bytes out.new
        ≡ string_bytes out.old ++ without_dot_segments (merged_path (parts_in base.now) path.now)) }
{
    let start = out.len();
    let (slash, _) = push_directories(out, start, is_rooted(base), base.path)?;
    push_segments(out, start, slash, path)
}

// Whether a slash stands before a path that is merged with that of the base.
fn is_rooted(base: &Reference<'_>) -> bool
    ensures { result ≡ is_rooted (parts_in base.now) }
{
    base.authority.is_some() && base.path.is_empty()
}
