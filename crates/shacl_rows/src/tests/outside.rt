ghost use Rattle.std.specs.Prelude.{◌<◌};

use super::case::{Case, are_named, number_behind};
use row_tools::RowFault;
use shx_outside::{
    Bytes, FailingHost, Memory, MemoryInputs, MemorySink, Name, NamedText, RegexHost,
};
use std::alloc::Global;

// The names of what the outside does.
const NAMES: [&str; 6] = [
    "read bytes ",
    "failing call ",
    "put bytes ",
    "failing put ",
    "failing pattern ",
    "further ",
];

/// What the outside does in a run: a read gives and a put takes so many bytes at most, and a call of the
/// inputs, a put and a pattern fail, each counted from 1, where 0 fails none. So many further runs are due
/// alike, in each of which the call or the put that fails is the one behind that of the run before.
#[derive(Clone, Copy)]
pub(super) struct Outside {
    pub read_bytes: u64,
    pub failing_call: u64,
    pub put_bytes: u64,
    pub failing_put: u64,
    pub failing_pattern: u64,
    pub further: u64,
}

impl Outside {
    /// The outside that lines describe: pieces of 64 bytes in, 4,096 out and no failures, but for what they
    /// name.
    pub fn of(lines: &str) -> Result<Outside, RowFault> {
        are_named(lines, &NAMES)?;
        Ok(Outside {
            read_bytes: number_behind(lines, "read bytes ", 64)?,
            failing_call: number_behind(lines, "failing call ", 0)?,
            put_bytes: number_behind(lines, "put bytes ", 4096)?,
            failing_put: number_behind(lines, "failing put ", 0)?,
            failing_pattern: number_behind(lines, "failing pattern ", 0)?,
            further: number_behind(lines, "further ", 0)?,
        })
    }

    /// The outside of the run that is so many further.
    pub fn of_further(&self, runs: u64) -> Outside {
        Outside {
            failing_call: further(self.failing_call, runs),
            failing_put: further(self.failing_put, runs),
            ..*self
        }
    }

    /// Inputs that hold the texts of a case.
    pub fn inputs(&self, alloc: Global, case: &Case) -> Result<MemoryInputs, Memory> {
        let files = files_of(alloc, case)?;
        let failing = only(alloc, self.failing_call)?;
        Ok(MemoryInputs::new(files, piece(self.read_bytes), failing))
    }

    /// An empty sink.
    pub fn sink(&self, alloc: Global) -> Result<MemorySink, Memory> {
        let failing = only(alloc, self.failing_put)?;
        Ok(MemorySink::new(alloc, piece(self.put_bytes), failing))
    }

    /// A host that builds patterns.
    pub fn patterns(&self, alloc: Global) -> Result<FailingHost<RegexHost>, Memory> {
        let failing = only(alloc, self.failing_pattern)?;
        Ok(FailingHost::new(RegexHost::new(), failing))
    }
}

/// The texts of a case, by the names that its words have for them.
pub(super) fn files_of(alloc: Global, case: &Case) -> Result<Vec<NamedText>, Memory> {
    let mut files = Vec::new(alloc);
    files.push(named(alloc, "shapes", case.prefixes, case.shapes)?)?;
    files.push(named(alloc, "more", case.prefixes, case.more)?)?;
    files.push(named(alloc, "data", case.prefixes, case.data)?)?;
    files.push(named(alloc, "script", "", case.script)?)?;
    Ok(files)
}

// A text behind its prefixes.
fn named(alloc: Global, name: &str, prefixes: &str, text: &str) -> Result<NamedText, Memory> {
    Ok(NamedText {
        name: Name::new(String::from_str(alloc, name)?),
        bytes: Bytes::new(bytes_of(alloc, prefixes, text)?),
    })
}

// The bytes of two texts, in the second of which U+FFFF stands for the byte 255.
fn bytes_of(alloc: Global, prefixes: &str, text: &str) -> Result<Vec<u8>, Memory> {
    let mut bytes = Vec::new(alloc);
    bytes.extend_from_slice(prefixes.as_bytes())?;
    let mut is_later = false;
    for piece in text.split("\u{ffff}") {
        if is_later {
            bytes.push(255)?;
        }
        bytes.extend_from_slice(piece.as_bytes())?;
        is_later = true;
    }
    Ok(bytes)
}

fn only(alloc: Global, number: u64) -> Result<Vec<u64>, Memory> {
    Ok(vec![in alloc; number]?)
}

// A number so many further, where there is one.
fn further(number: u64, by: u64) -> u64 {
    match number {
        0 => 0,
        number => number.saturating_add(by),
    }
}

fn piece(bytes: u64) -> usize
    ensures { 0 < result }
{
    bytes.clamp(1, 4096) as usize
}
