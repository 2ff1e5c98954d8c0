//! What the lines that a run wrote say of its edits.
ghost use Rattle.std.specs.Prelude.{◌≡◌, IfSome, OnSome};
ghost use Rattle.text_input.specs.Lines.{lines_of};
ghost use Rattle.std.specs.Str.Parse.{digits_value};
ghost use Rattle.shacl_drill.specs.Summary.{part, told_by};
ghost use Rattle.shacl_drill.specs.inner.Tallied.{with_line, nothing_told};

use crate::size::decimal_number;
use std::marker::Model;
use std::str;

/// What some lines say: counts of the answers to edits, the pairs that were evaluated for these, and the last
/// line with a count.
#[derive(Debug, Drop)]
pub struct Tally<'a> {
    pub edits: u64,
    pub changed: u64,
    pub evaluated: u64,
    pub last_count: Option<&'a [u8]>,
}

impl<'a> Model for Tally<'a> {
    ghost use Rattle.std.specs.Prelude.{option_copied};
    ghost use Rattle.shacl_drill.specs.Summary.{Told};

    ghost Value = { Told };

    ghost view = { λ a. record {
      edits = a.edits;
      changed = a.changed;
      evaluated = a.evaluated;
      last_count = option_copied a.last_count;
    } };
}

impl<'a> Tally<'a> {
    /// What the lines of an output say: none where an answer has no number, or a sum has no room in 64 bits.
    /// It reads the output once.
    pub fn of(output: &'a [u8]) -> Option<Tally<'a>>
        ensures { IfSome result (λ tally. tally ≡ told_by (lines_of output.now)) }
    {
        let mut tally = Tally::new();
        for line in output.split(|byte| *byte == b'\n') {
            tally.add(line)?;
        }
        Some(tally)
    }

    fn new() -> Tally<'a>
        ensures { result ≡ nothing_told }
    {
        Tally {
            edits: 0,
            changed: 0,
            evaluated: 0,
            last_count: None,
        }
    }

    // Takes in one line more, unless it has no number where one is due, or a sum has no room for it.
    fn add(&mut self, line: &'a [u8]) -> Option<()>
        ensures { OnSome result (self.new ≡ with_line self.old line.now) }
    {
        if line.starts_with(b"ok ") {
            self.edits = self.edits.checked_add(1)?;
            self.evaluated = self.evaluated.checked_add(number_in(part(3, line))?)?;
        }
        if line.starts_with(b"ok changed ") {
            self.changed = self.changed.checked_add(1)?;
        }
        if line.starts_with(b"count ") {
            self.last_count = Some(line);
        }
        Some(())
    }
}

/// The part of a line with this number, where parts end at spaces and equals signs; an empty one where the
/// line has fewer.
pub fn part(index: usize, line: &[u8]) -> &[u8]
    ensures { result.now ≡ part index line.now }
{
    line.split(|byte| *byte == b' ' || *byte == b'=')
        .nth(index)
        .unwrap_or(&[])
}

// The number that some digits write.
fn number_in(digits: &[u8]) -> Option<u64>
    ensures { IfSome result (λ n. n ≡ digits_value 10 digits.now) }
{
    decimal_number(str::from_utf8(digits).ok()?)
}
