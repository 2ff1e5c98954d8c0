//! The word with which a line begins.
ghost use Rattle.std.specs.Prelude.{◌≡◌, false, not, position, MatchOption};
ghost use Rattle.ttl_tokens.specs.Chars.{is_white};
ghost use Rattle.script_lines.specs.Forms.{begins_with, word_start, word_text};
ghost use Rattle.script_lines.specs.Lines.{asked_by};
ghost use Rattle.script_lines.specs.inner.Parts.{BeginsWithNone, IsWordEnd};

use crate::Command;

/// A word that stands alone in a line.
#[derive(Clone, Copy, Debug)]
pub(crate) enum Word {
    Report,
    Count,
    Begin,
    Commit,
    Abandon,
    Undo,
    Redo,
}

impl Word {
    /// Each of them.
    pub(crate) const ALL: [Word; 7] = [
        Word::Report,
        Word::Count,
        Word::Begin,
        Word::Commit,
        Word::Abandon,
        Word::Undo,
        Word::Redo,
    ];

    /// How it is written.
    pub(crate) fn text(self) -> &'static str
        ensures { result.now ≡ word_text self }
    {
        match self {
            Word::Report => "report",
            Word::Count => "count",
            Word::Begin => "begin",
            Word::Commit => "commit",
            Word::Abandon => "abandon",
            Word::Undo => "undo",
            Word::Redo => "redo",
        }
    }

    /// What it asks for.
    pub(crate) fn command(self) -> Command
        ensures { result ≡ asked_by self }
    {
        match self {
            Word::Report => Command::Report,
            Word::Count => Command::Count,
            Word::Begin => Command::Begin,
            Word::Commit => Command::Commit,
            Word::Abandon => Command::Abandon,
            Word::Undo => Command::Undo,
            Word::Redo => Command::Redo,
        }
    }
}

/// White space.
pub(crate) fn is_white(byte: u8) -> bool
    ensures { result ≡ is_white byte }
{
    matches!(byte, b' ' | b'\t' | b'\r' | b'\n')
}

/// The byte at which the word of a line begins.
pub(crate) fn word_start(line: &str) -> usize
    ensures { result ≡ word_start line.now }
{
    first_other(line.as_bytes()).unwrap_or(line.len())
}

// The first byte that is not white space.
fn first_other(bytes: &[u8]) -> Option<usize>
    ensures { result ≡ position (λ b. not (is_white b)) bytes.now }
{
    bytes.iter().position(|byte| !is_white(*byte))
}

/// The byte behind a word, where the line begins with it: its own word begins at `start`.
pub(crate) fn word_end(line: &str, start: usize, word: &str) -> Option<usize>
    requires { start ≡ word_start line.now }
    ensures { MatchOption result (begins_with word.now line.now ≡ false) (IsWordEnd line.now word.now) }
{
    if line[start..].starts_with(word) {
        Some(start + word.len())
    } else {
        None
    }
}

/// The word that stands alone with which a line begins, and the byte behind it.
pub(crate) fn word_alone(line: &str, start: usize) -> Option<(Word, usize)>
    requires { start ≡ word_start line.now }
    ensures { MatchOption result (BeginsWithNone line.now)
        (λ found. IsWordEnd line.now (word_text found.0) found.1) }
{
    for word in Word::ALL {
        if let Some(at) = word_end(line, start, word.text()) {
            return Some((word, at));
        }
    }
    None
}
