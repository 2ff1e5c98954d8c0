use super::holds;
use row_tools::{RowFault, all_met, cut, number, term};
use shx_outside::MemorySink;
use shx_term::Pieces;
use std::alloc::Global;
use std::test::Fail;
use text_output::{WriteFault, Writer, add_number, write_term};

// The number of the put that fails, and the front of `ok changed` that is put, in pieces of three bytes.
const FRONTS: &str = "\
1|
2|ok 
4|ok change";

fn puts_front(alloc: Global, row: &str) -> Result<bool, RowFault> {
    let (failing, front) = cut(row, "|")?;
    let failing = vec![in alloc; u64::from(number(failing)?)]?;
    let mut sink = MemorySink::new(alloc, 3, failing);
    let mut writer = Writer::new(&mut sink);
    writer.add(b"ok changed");
    Ok(writer.finish() == Err(WriteFault) && sink.bytes() == front.as_bytes())
}

#[test]
fn a_put_that_fails_leaves_a_front(rt: HostRuntime) -> Result<(), Fail> {
    all_met(rt.alloc(), FRONTS, puts_front)
}

// Whether a text that is longer than the buffer stands between two others.
fn puts_long_text(alloc: Global) -> Result<bool, RowFault> {
    let long = "x".repeat(alloc, 10000)?;
    let want = format!(in alloc; "lines 12{} unchanged\n", long.as_str())?;
    let mut sink = MemorySink::new(alloc, 4096, Vec::new(alloc));
    let mut writer = Writer::new(&mut sink);
    writer.add(b"lines ");
    add_number(12, &mut writer);
    writer.add(long.as_bytes());
    writer.add(b" unchanged\n");
    let is_put = writer.finish().is_ok();
    Ok(is_put && sink.bytes() == want.as_bytes())
}

#[test]
fn a_text_longer_than_the_buffer_keeps_its_place(rt: HostRuntime) -> Result<(), Fail> {
    holds(puts_long_text(rt.alloc()))
}

// The number of the put that fails, and how many bytes of a full buffer and more are put, in pieces of 4096.
const MORE: &str = "\
1|0
2|4096
3|8192
4|all";

fn is_put(put: Result<(), WriteFault>, bytes: usize, due: &str) -> Result<bool, RowFault> {
    match put {
        Ok(()) => Ok(due == "all"),
        Err(WriteFault) => Ok(bytes == number(due)? as usize),
    }
}

fn puts_more(alloc: Global, row: &str) -> Result<bool, RowFault> {
    let (failing, due) = cut(row, "|")?;
    let failing = vec![in alloc; u64::from(number(failing)?)]?;
    let full = "x".repeat(alloc, 8192)?;
    let mut sink = MemorySink::new(alloc, 4096, failing);
    let mut writer = Writer::new(&mut sink);
    writer.add(full.as_bytes());
    writer.add(b"y");
    let put = writer.finish();
    is_put(put, sink.bytes().len(), due)
}

#[test]
fn nothing_is_put_after_a_failure(rt: HostRuntime) -> Result<(), Fail> {
    all_met(rt.alloc(), MORE, puts_more)
}

// Terms, each with the text that is put. A `~` is a line feed.
const TERMS: &str = r#"
e:a|<http://e/a>
data:b1|_:d-b1
shapes#12|_:t-12
'a"b\~'|"a\"b\\\n"
'a"b\~'@fr|"a\"b\\\n"@fr
'a"b\~'^^integer|"a\"b\\\n"^^<http://www.w3.org/2001/XMLSchema#integer>
"#;

// Whether a row's term is put as the row says, in pieces of three bytes.
fn puts_term(alloc: Global, row: &str) -> Result<bool, RowFault> {
    let (word, text) = cut(row, "|")?;
    let word = word.replace(alloc, "~", "\n")?;
    let term = term(alloc, word.as_str())?;
    let mut sink = MemorySink::new(alloc, 3, Vec::new(alloc));
    let written = write_term(&term, &mut sink);
    Ok(written.is_ok() && sink.bytes() == text.as_bytes())
}

#[test]
fn terms_are_put(rt: HostRuntime) -> Result<(), Fail> {
    all_met(rt.alloc(), TERMS, puts_term)
}
