//! Reading a script line by line.
ghost use Rattle.std.specs.Prelude.{◌≡◌, ◌+◌, ◌-◌, ◌<◌, ◌≤◌, [], ◌++◌, true, false, length, take, drop};
ghost use Rattle.std.specs.Prelude.{IsOk, IfOk, OnOk, OnErr, position};
ghost use Rattle.shx_outside.specs.declared.role.Role.TheVariants.{Script};
ghost use Rattle.shx_outside.specs.Counted.{HasCause};
ghost use Rattle.shx_outside.specs.Told.{Took, StaysAdmitted, SameTexts, OthersStay};
ghost use Rattle.text_input.specs.Lines.{is_line_feed};
ghost use Rattle.text_input.specs.inner.LineParts.{TakesPart, IsKept};
ghost use Rattle.text_input.specs.LineRead.{IsLineRead};
ghost use Rattle.text_input.specs.ScriptReader.{new_reader, left_of, MetEnd, GoesOn};

use crate::ReadFault;
use shx_outside::{Failed, Inputs, Role};
use std::alloc::{AllocError, Global};
use std::marker::Model;

/// How many bytes are read ahead at most.
const PIECE: usize = 4096;

/// What stands next in a script.
#[derive(Debug)]
pub enum Line {
    /// A line without its line feed.
    Is(Vec<u8>),
    /// A line that has more bytes than it may.
    TooLong,
    End,
    /// The script goes on past its limit, and no line feed stands before it.
    PastLimit,
}

impl Drop for Line {
    fn drop(self) {
        match self {
            Line::Is(_line) => {}
            Line::TooLong => {}
            Line::End => {}
            Line::PastLimit => {}
        }
    }
}

// How the bytes that are read ahead continue a line.
enum Part {
    // All of them are inside the line.
    Inner,
    // A line feed ends the line.
    Last,
    // The script's limit comes before a line feed.
    Cut,
}

/// A script that is read line by line. It reads no more than the line at hand needs and the piece that it
/// stands in, takes one byte past the script's limit and no more, and does not read again once it met the
/// end.
#[derive(Drop)]
pub struct ScriptReader {
    piece: [u8; PIECE],
    start: usize,
    end: usize,
    budget: u64,
    ended: bool,
}

impl Model for ScriptReader {
    ghost use Rattle.std.specs.Prelude.{ℕ, ◌≤◌, ◌<◌, ◌^◌, ◌+◌, ◌-◌, take, drop};
    ghost use Rattle.text_input.specs.ScriptReader.{ReaderState};

    ghost Value = { ReaderState };

    ghost view = { λ a. record {
      pending = take (a.end - a.start) (drop a.start a.piece);
      budget = a.budget;
      ended = a.ended;
    } };

    ghost invariant = { λ a. (a.start ≤ a.end) × (a.end ≤ 4096) × (a.budget < 2 ^ 64) };
}

impl ScriptReader {
    /// A reader of a script that may have so many bytes.
    pub fn new(limit: u64) -> ScriptReader
        ensures { result ≡ new_reader limit }
    {
        ScriptReader {
            piece: [0; PIECE],
            start: 0,
            end: 0,
            budget: limit,
            ended: false,
        }
    }

    /// The next line of at most `most` bytes. It costs the line's length, and keeps at most `most` bytes and
    /// one of it. `Input` comes where the inputs fail, which leaves the line half read, and `Memory` where
    /// memory is wanting.
    pub fn next_line<I: Inputs>(
        &mut self,
        alloc: Global,
        host: &mut I,
        most: u64,
    ) -> Result<Line, ReadFault>
        requires opened { (I.state host.old).opened Script ≡ true }
        requires met { MetEnd self.old.ended ((I.state host.old).rest Script) }
        ensures { IsLineRead self.old (I.state host.old) self.new (I.state host.new)
            (I.admits host.old) (I.admits host.new) most result }
    {
        let mut line = Vec::new(alloc);
        loop {
            if !self.fill(host)? {
                let nothing = line.is_empty();
                if nothing {
                    return Ok(Line::End);
                }
                return Ok(line_of(line, most));
            }
            match self.take_part(&mut line, most)? {
                Part::Inner => {}
                Part::Last => return Ok(line_of(line, most)),
                Part::Cut => return Ok(Line::PastLimit),
            }
        }
    }

    // Reads a piece if no bytes are pending, and answers whether some are. After the end it reads no more.
    fn fill<I: Inputs>(&mut self, host: &mut I) -> Result<bool, Failed>
        requires opened { (I.state host.old).opened Script ≡ true }
        requires met { MetEnd self.old.ended ((I.state host.old).rest Script) }
        ensures some { IfOk result (λ some. some ≡ true → 0 < length self.new.pending) }
        ensures end { IfOk result (λ some. some ≡ false → (self.new.pending ≡ []) × (self.new.ended ≡ true)) }
        ensures failed { OnErr result (self.new.pending ≡ []) }
        ensures ended { self.old.ended ≡ true → IsOk result }
        ensures budget { self.new.budget ≡ self.old.budget }
        ensures took { Took (left_of self.old ((I.state host.old).rest Script))
            (left_of self.new ((I.state host.new).rest Script)) [] }
        ensures cause { HasCause (I.state host.old).faults (I.state host.new).faults result }
        ensures goes_on { GoesOn self.old (I.state host.old) self.new (I.state host.new) }
        ensures admitted { StaysAdmitted (I.admits host.old) (I.admits host.new) }
    {
        if self.pending_len() > 0 {
            return Ok(true);
        }
        if self.ended {
            return Ok(false);
        }
        self.read_piece(host)
    }

    // Reads a piece, or meets the end. No more than one byte past the limit is read.
    fn read_piece<I: Inputs>(&mut self, host: &mut I) -> Result<bool, Failed>
        requires opened { (I.state host.old).opened Script ≡ true }
        requires unread { self.old.pending ≡ [] }
        requires unended { self.old.ended ≡ false }
        ensures some { IfOk result (λ some. some ≡ true → 0 < length self.new.pending) }
        ensures end { IfOk result (λ some. some ≡ false → (self.new.pending ≡ []) × (self.new.ended ≡ true)) }
        ensures failed { OnErr result (self.new.pending ≡ []) }
        ensures past { length self.new.pending ≤ self.new.budget + 1 }
        ensures budget { self.new.budget ≡ self.old.budget }
        ensures took { Took (left_of self.old ((I.state host.old).rest Script))
            (left_of self.new ((I.state host.new).rest Script)) [] }
        ensures cause { HasCause (I.state host.old).faults (I.state host.new).faults result }
        ensures opened { (I.state host.new).opened Script ≡ true }
        ensures opens { (I.state host.new).opens Script ≡ (I.state host.old).opens Script }
        ensures whole { (I.state host.new).whole Script ≡ (I.state host.old).whole Script }
        ensures met { MetEnd self.new.ended ((I.state host.new).rest Script) }
        ensures others { OthersStay Script (I.state host.old) (I.state host.new) }
        ensures admitted { StaysAdmitted (I.admits host.old) (I.admits host.new) }
        ensures texts { SameTexts (I.state host.old) (I.state host.new) }
    {
        let room = room_for(self.budget);
        self.start = 0;
        self.end = 0;
        let count = host.read(Role::Script, &mut self.piece[..room])?;
        self.end = count;
        self.ended = count == 0;
        Ok(count > 0)
    }

    // Takes the bytes of the line at hand that are pending, and behind the last of them its line feed.
    fn take_part(&mut self, line: &mut Vec<u8>, most: u64) -> Result<Part, AllocError>
        requires some { 0 < length self.old.pending }
        requires kept { length line.old.items ≤ most + 1 }
        ensures part { IfOk result (TakesPart self.old self.new line.old.items line.new.items most) }
        ensures failed { OnErr result (self.new ≡ self.old) }
        ensures ended { self.new.ended ≡ self.old.ended }
    {
        let within = self.within();
        match first_feed(within) {
            Some(place) => {
                keep(line, &within[..place], most)?;
                self.skip(place + 1);
                Ok(Part::Last)
            }
            None => {
                let count = within.len();
                if count < self.pending_len() {
                    return Ok(Part::Cut);
                }
                keep(line, within, most)?;
                self.skip(count);
                Ok(Part::Inner)
            }
        }
    }

    fn pending_len(&self) -> usize
        ensures { result ≡ length self.now.pending }
    {
        self.end - self.start
    }

    // The pending bytes that the script's limit allows.
    fn within(&self) -> &[u8]
        ensures { result.now ≡ take self.now.budget self.now.pending }
    {
        let count = self.end - self.start;
        if self.budget < count as u64 {
            &self.piece[self.start..self.start + self.budget as usize]
        } else {
            &self.piece[self.start..self.end]
        }
    }

    fn skip(&mut self, count: usize)
        requires pending { count ≤ length self.old.pending }
        requires budget { count ≤ self.old.budget }
        ensures pending { self.new.pending ≡ drop count self.old.pending }
        ensures budget { self.new.budget ≡ self.old.budget - count }
        ensures ended { self.new.ended ≡ self.old.ended }
    {
        self.start += count;
        self.budget -= count as u64;
    }
}

// The place of the first line feed.
fn first_feed(bytes: &[u8]) -> Option<usize>
    ensures { result ≡ position is_line_feed bytes.now }
{
    bytes.iter().position(|b| *b == b'\n')
}

// Room for what the script may still have and one byte more, or for a whole piece.
fn room_for(budget: u64) -> usize
    ensures some { 0 < result }
    ensures piece { result ≤ 4096 }
    ensures past { result ≤ budget + 1 }
{
    if budget < PIECE as u64 {
        budget as usize + 1
    } else {
        PIECE
    }
}

// Keeps bytes behind a line, as far as it has no more than `most` and one.
fn keep(line: &mut Vec<u8>, bytes: &[u8], most: u64) -> Result<(), AllocError>
    requires { length line.old.items ≤ most + 1 }
    ensures { OnOk result (line.new.items ≡ take (most + 1) (line.old.items ++ bytes.now)) }
{
    let len = line.len() as u64;
    if len > most {
        return Ok(());
    }
    let room = most - len;
    if room < bytes.len() as u64 {
        line.extend_from_slice(&bytes[..room as usize + 1])
    } else {
        line.extend_from_slice(bytes)
    }
}

fn line_of(line: Vec<u8>, most: u64) -> Line
    ensures { IsKept line.items most result }
{
    if line.len() as u64 > most {
        Line::TooLong
    } else {
        Line::Is(line)
    }
}
