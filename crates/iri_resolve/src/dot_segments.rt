ghost use Rattle.std.specs.Prelude.{◌≡◌, true, false, ◌<◌, ◌≤◌, ◌++◌, length, slice_index, take, drop};
ghost use Rattle.std.specs.Prelude.{string_bytes, string_len, IfOk, OnOk, MatchOption, IsUtf8};
ghost use Rattle.std.specs.List.{list_any};
ghost use Rattle.iri_resolve.specs.Characters.{is_slash};
ghost use Rattle.iri_resolve.specs.DotSegments.{without_dot_segments, without_last_segment};
ghost use Rattle.iri_resolve.specs.inner.Walk.{after_slash, dots_removed, slash_after, with_segment};
ghost use Rattle.iri_resolve.specs.inner.Walk.{with_last_segment, last_segment, IsSegment, WritesFrom};
ghost use Rattle.iri_resolve.specs.inner.Walk.{IsWalked};

use std::alloc::AllocError;

// Writes what a path is without its dot segments, behind what was written (RFC 3986, section 5.2.4). It takes
// time linear in the path: what a segment `..` walks back over is taken away.
pub(crate) fn push_without_dots(out: &mut String, path: &str) -> Result<(), AllocError>
    ensures { OnOk result (string_bytes out.new ≡ string_bytes out.old ++ without_dot_segments path.now) }
{
    let start = out.len();
    push_segments(out, start, false, path)
}

// Walks a path to its end. What `out` holds from `start` on is the output, and `slash` says whether a slash
// stands before the path.
pub(crate) fn push_segments(
    out: &mut String,
    start: usize,
    slash: bool,
    path: &str,
) -> Result<(), AllocError>
    requires start { start ≤ string_len out.old }
    requires text { IsUtf8 (take start (string_bytes out.old)) }
    ensures { OnOk result
        (WritesFrom start (string_bytes out.old) (string_bytes out.new)
        (dots_removed (after_slash slash path.now) (drop start (string_bytes out.old)))) }
{
    let (slash, last) = push_directories(out, start, slash, path)?;
    push_last_segment(out, start, slash, last)
}

// Walks the segments that a slash follows. It answers whether a slash stands before what comes next, and the
// last segment.
pub(crate) fn push_directories<'a>(
    out: &mut String,
    start: usize,
    slash: bool,
    path: &'a str,
) -> Result<(bool, &'a str), AllocError>
    requires start { start ≤ string_len out.old }
    requires text { IsUtf8 (take start (string_bytes out.old)) }
    ensures walked { IfOk result (λ next.
        IsWalked start (string_bytes out.old) (string_bytes out.new) slash path.now next.0) }
    ensures last { IfOk result (λ next. next.1.now ≡ last_segment path.now) }
{
    let mut next = slash;
    let mut rest = path;
    while let Some((segment, behind)) = cut_segment(rest) {
        next = push_segment(out, start, next, segment)?;
        rest = behind;
    }
    Ok((next, rest))
}

// The first segment that a slash follows, and what stands behind that slash.
fn cut_segment(path: &str) -> Option<(&str, &str)>
    ensures { MatchOption result (list_any is_slash path.now ≡ false)
        (λ cut. IsSegment path.now cut.0.now cut.1.now) }
{
    path.split_once('/')
}

// Walks one segment that a slash follows, and answers whether a slash stands before what comes next.
fn push_segment(
    out: &mut String,
    start: usize,
    slash: bool,
    segment: &str,
) -> Result<bool, AllocError>
    requires start { start ≤ string_len out.old }
    requires text { IsUtf8 (take start (string_bytes out.old)) }
    ensures next { IfOk result (λ next. next ≡ slash_after slash segment.now) }
    ensures written { OnOk result
        (WritesFrom start (string_bytes out.old) (string_bytes out.new)
        (with_segment slash segment.now (drop start (string_bytes out.old)))) }
{
    if segment == "." {
        return Ok(slash);
    }
    if segment == ".." {
        if slash {
            pop_segment(out, start);
        }
        return Ok(slash);
    }
    push_after_slash(out, slash, segment)?;
    Ok(true)
}

// Walks the last segment, which no slash follows.
fn push_last_segment(
    out: &mut String,
    start: usize,
    slash: bool,
    segment: &str,
) -> Result<(), AllocError>
    requires start { start ≤ string_len out.old }
    requires text { IsUtf8 (take start (string_bytes out.old)) }
    ensures { OnOk result
        (WritesFrom start (string_bytes out.old) (string_bytes out.new)
        (with_last_segment slash segment.now (drop start (string_bytes out.old)))) }
{
    push_segment(out, start, slash, segment)?;
    if segment == "." || segment == ".." {
        push_after_slash(out, slash, "")?;
    }
    Ok(())
}

// Writes a text, and the slash before it where there is one.
fn push_after_slash(out: &mut String, slash: bool, text: &str) -> Result<(), AllocError>
    ensures { OnOk result (string_bytes out.new ≡ string_bytes out.old ++ after_slash slash text.now) }
{
    if slash {
        out.push('/')?;
    }
    out.push_str(text)
}

// Takes away the last segment of what `out` holds from `start` on, and the slash before it.
fn pop_segment(out: &mut String, start: usize)
    requires start { start ≤ string_len out.old }
    requires text { IsUtf8 (take start (string_bytes out.old)) }
    ensures { WritesFrom start (string_bytes out.old) (string_bytes out.new)
        (without_last_segment (drop start (string_bytes out.old))) }
{
    let kept = kept_len(&out.as_bytes()[start..]);
    out.truncate(start + kept);
}

// The length of a path without its last segment and the slash before it.
fn kept_len(path: &[u8]) -> usize
    ensures kept { take result path.now ≡ without_last_segment path.now }
    ensures within { result ≤ length path.now }
    ensures slash { 0 < result → is_slash (slice_index path.now result) ≡ true }
{
    match path.iter().rposition(|b| *b == b'/') {
        Some(at) => at,
        None => 0,
    }
}
