use super::named;
use row_tools::{RowFault, all_met, cut, in_four, number};
use shx_outside::{Inputs, Memory, MemoryInputs, Role};
use std::alloc::Global;
use std::test::Fail;
use text_input::{Line, ReadFault, ScriptReader, read_text};

/// A script with `~` for a line feed; the most bytes of the script and of a line; the number of the call that
/// fails, from the opening on; and what five calls give: a line before `;`, `!` for one that is too long, `.`
/// at the end, `>` past the limit, and `?` for a failure.
const SCRIPTS: &str = "a~~bc|100|10|0|a;;bc;..
a~~bc|100|10|5|a;;bc;..
a~~bc~|100|10|3|a;;?bc;.
|0|10|3|.....
ab~cd~|6|10|0|ab;cd;...
ab~cd~|5|10|0|ab;>>>>
abcd~|0|10|3|>>>>>
abcdefgh~ij~|100|8|0|abcdefgh;ij;...
abcdefgh~ij~|100|7|0|!ij;...
abcd|4|3|0|!....
a~~|100|0|0|!;...";

/// A text; the most bytes that it may have; the number of the call that fails; and what comes of reading it.
const TEXTS: &str = "abcd|10|0|abcd
abcd|4|0|abcd
abcd|3|0|the text is too long
abcdefg|4|0|the text is too long
|0|0|
a|0|0|the text is too long
abcd|10|1|an input failed
abcd|10|2|an input failed
abcd|10|4|an input failed
abcd|10|5|abcd";

// Inputs that hold one text, in pieces of three bytes, and whose call of this number fails.
fn inputs_of(alloc: Global, name: &str, text: &str, failing: u32) -> Result<MemoryInputs, Memory> {
    let text = text.replace(alloc, "~", "\n")?;
    let files = vec![in alloc; named(alloc, name, text.as_str())?]?;
    let failing = vec![in alloc; u64::from(failing)]?;
    Ok(MemoryInputs::new(files, 3, failing))
}

// What is due behind an answer, if the answer is due.
fn behind<'a>(due: &'a [u8], answer: &Result<Line, ReadFault>) -> Option<&'a [u8]> {
    match answer {
        Ok(Line::Is(line)) => due.strip_prefix(line.as_slice())?.strip_prefix(b";"),
        Ok(Line::TooLong) => due.strip_prefix(b"!"),
        Ok(Line::End) => due.strip_prefix(b"."),
        Ok(Line::PastLimit) => due.strip_prefix(b">"),
        Err(_) => due.strip_prefix(b"?"),
    }
}

// Whether five calls give what is due.
fn read_lines(
    alloc: Global,
    inputs: &mut MemoryInputs,
    (limit, most): (u32, u32),
    due: &str,
) -> bool {
    if inputs.open(Role::Script, "script").is_err() {
        return due.is_empty();
    }
    let mut left = due.as_bytes();
    let mut reader = ScriptReader::new(u64::from(limit));
    for _ in 0..5 {
        match behind(left, &reader.next_line(alloc, inputs, u64::from(most))) {
            Some(rest) => left = rest,
            None => return false,
        }
    }
    left.is_empty()
}

// Whether the row's script gives what the row says.
fn is_read_by_lines(alloc: Global, row: &str) -> Result<bool, RowFault> {
    let (script, limit, most, rest) = in_four(row, "|")?;
    let (failing, due) = cut(rest, "|")?;
    let sizes = (number(limit)?, number(most)?);
    let mut inputs = inputs_of(alloc, "script", script, number(failing)?)?;
    Ok(read_lines(alloc, &mut inputs, sizes, due))
}

#[test]
fn scripts_are_read_line_by_line(rt: HostRuntime) -> Result<(), Fail> {
    all_met(rt.alloc(), SCRIPTS, is_read_by_lines)
}

// Whether this comes of reading a text of at most so many bytes.
fn reads_as(
    alloc: Global,
    inputs: &mut MemoryInputs,
    most: u32,
    due: &str,
) -> Result<bool, RowFault> {
    match read_text(alloc, inputs, Role::Data, "data", u64::from(most)) {
        Ok(bytes) => Ok(bytes.as_slice() == due.as_bytes()),
        Err(fault) => Ok(format!(in alloc; "{fault}")?.as_str() == due),
    }
}

// Whether the row's text is read as the row says.
fn is_read_whole(alloc: Global, row: &str) -> Result<bool, RowFault> {
    let (text, most, failing, due) = in_four(row, "|")?;
    let most = number(most)?;
    let mut inputs = inputs_of(alloc, "data", text, number(failing)?)?;
    reads_as(alloc, &mut inputs, most, due)
}

#[test]
fn texts_are_read_within_their_limit(rt: HostRuntime) -> Result<(), Fail> {
    all_met(rt.alloc(), TEXTS, is_read_whole)
}
