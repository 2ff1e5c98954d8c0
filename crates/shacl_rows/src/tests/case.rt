ghost use Rattle.std.specs.Prelude.{IfOk};
ghost use Rattle.shx_term.specs.Limits.{AreUsable};

use row_tools::{RowFault, number};
use shx_term::Limits;

// The marks of the parts of a block, behind `== `.
const MARKS: [&str; 11] = [
    "words\n",
    "limits\n",
    "outside\n",
    "prefixes\n",
    "shapes\n",
    "more\n",
    "data\n",
    "script\n",
    "output\n",
    "front\n",
    "status ",
];

// The names of limits.
const LIMITS: [&str; 12] = [
    "text ",
    "script ",
    "line ",
    "triples ",
    "terms ",
    "depth ",
    "path depth ",
    "path parts ",
    "references ",
    "shapes ",
    "group ",
    "history ",
];

/// A run, and how it has to end.
///
/// It is written as a block of text, in parts that begin with marks: `== run NAME`, `== words` (one a line),
/// `== limits` and `== outside` (a name and a number a line), `== prefixes` (what the shapes and the data
/// begin with), `== shapes`, `== more` (another text of shapes, of this name), `== data`, `== script`,
/// `== output` (or `== front`, where a proper front of this text is due, or of the output where it is empty)
/// and `== status N`. A part that a block leaves out is that of the block that its table shares, and is else
/// empty. A text that ends in `$` has no line feed at its end, and U+FFFF in it stands for the byte 255. A
/// block with another mark or another name cannot be read.
#[derive(Clone, Copy)]
pub(super) struct Case<'a> {
    pub words: &'a str,
    pub limits: Limits,
    pub outside: &'a str,
    pub prefixes: &'a str,
    pub shapes: &'a str,
    pub more: &'a str,
    pub data: &'a str,
    pub script: &'a str,
    pub output: &'a str,
    pub is_front: bool,
    pub status: u8,
}

impl<'a> Case<'a> {
    /// The run of a block without its mark `== run`, with the parts that the block leaves out from another.
    pub fn of(block: &'a str, shared: &'a str) -> Result<Case<'a>, RowFault>
        ensures { IfOk result (λ case. AreUsable case.limits) }
    {
        if !has_known_marks(block) || !has_known_marks(shared) {
            return Err(RowFault::Unread);
        }
        Ok(Case {
            words: words_of(block, shared),
            limits: limits_of(part(block, shared, "== limits\n"))?,
            outside: part(block, shared, "== outside\n"),
            prefixes: part(block, shared, "== prefixes\n"),
            shapes: part(block, shared, "== shapes\n"),
            more: part(block, shared, "== more\n"),
            data: part(block, shared, "== data\n"),
            script: part(block, shared, "== script\n"),
            output: due_of(block, shared),
            is_front: behind(block, "== front\n").is_some(),
            status: status_of(part(block, shared, "== status "))?,
        })
    }
}

/// The name of a run, which stands before its parts.
pub(super) fn name_of(block: &'static str) -> &'static str {
    match block.split_once('\n') {
        Some((name, _)) => name,
        None => block,
    }
}

fn begins_with_any(text: &str, fronts: &[&str]) -> bool {
    fronts.iter().any(|front| text.starts_with(*front))
}

fn has_known_marks(block: &str) -> bool {
    let Some((_, parts)) = block.split_once("== ") else {
        return true;
    };
    parts.split("== ").all(|part| begins_with_any(part, &MARKS))
}

// The names of the texts, where no words are given.
fn words_of<'a>(block: &'a str, shared: &'a str) -> &'a str {
    match part_of(block, shared, "== words\n") {
        Some(words) => words,
        None if part_of(block, shared, "== script\n").is_some() => "shapes\ndata\nscript\n",
        None => "shapes\ndata\n",
    }
}

// The text that is due, or of which a front is due.
fn due_of<'a>(block: &'a str, shared: &'a str) -> &'a str {
    match behind(block, "== front\n") {
        Some(text) if !text.is_empty() => text,
        _ => part(block, shared, "== output\n"),
    }
}

fn part<'a>(block: &'a str, shared: &'a str, mark: &str) -> &'a str {
    part_of(block, shared, mark).unwrap_or("")
}

fn part_of<'a>(block: &'a str, shared: &'a str, mark: &str) -> Option<&'a str> {
    match behind(block, mark) {
        Some(text) => Some(text),
        None => behind(shared, mark),
    }
}

// What stands behind a mark, up to the next one.
fn behind<'a>(block: &'a str, mark: &str) -> Option<&'a str> {
    let (_, rest) = block.split_once(mark)?;
    let text = match rest.split_once("== ") {
        Some((text, _)) => text,
        None => rest,
    };
    match text.strip_suffix("$\n") {
        Some(text) => Some(text),
        None => Some(text),
    }
}

fn status_of(digits: &str) -> Result<u8, RowFault> {
    match digits.trim_end().parse::<u8>() {
        Ok(status) => Ok(status),
        Err(_) => Err(RowFault::Unread),
    }
}

/// The limits of the program, but for those that lines name.
fn limits_of(lines: &str) -> Result<Limits, RowFault>
    ensures { IfOk result AreUsable }
{
    are_named(lines, &LIMITS)?;
    let mut limits = Limits::program();
    limits.text = number_behind(lines, "text ", limits.text)?.max(1);
    limits.script = number_behind(lines, "script ", limits.script)?.max(1);
    limits.line = number_behind(lines, "line ", limits.line)?.max(1);
    limits.triples = number_behind(lines, "triples ", limits.triples)?.max(1);
    limits.terms = number_behind(lines, "terms ", 16_000_000)?.clamp(62, 16_000_000) as u32;
    limits.turtle_depth = number_behind(lines, "depth ", 128)?.clamp(1, 128) as u32;
    limits.path_depth = number_behind(lines, "path depth ", 64)?.clamp(1, 64) as u32;
    limits.path_parts = number_behind(lines, "path parts ", 4_096)?.clamp(1, 4_096) as u32;
    limits.reference_depth = number_behind(lines, "references ", 64)?.clamp(1, 64) as u32;
    limits.shapes = number_behind(lines, "shapes ", 100_000)?.clamp(1, 100_000) as u32;
    limits.group = number_behind(lines, "group ", 10_000)?.clamp(1, 10_000) as u32;
    limits.history = number_behind(lines, "history ", 100)?.clamp(1, 100) as u32;
    Ok(limits)
}

/// Refuses lines that begin with none of these names.
pub(super) fn are_named(lines: &str, names: &[&str]) -> Result<(), RowFault> {
    if lines.lines().all(|line| begins_with_any(line, names)) {
        Ok(())
    } else {
        Err(RowFault::Unread)
    }
}

/// The number behind a name at the start of a line, or another where no line begins so.
pub(super) fn number_behind(lines: &str, name: &str, other: u64) -> Result<u64, RowFault> {
    for line in lines.lines() {
        if let Some(digits) = line.strip_prefix(name) {
            return Ok(u64::from(number(digits)?));
        }
    }
    Ok(other)
}
