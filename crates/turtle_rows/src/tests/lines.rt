mod rows;

use super::outcomes::is_as_said;
use super::seen::{add, add_term, document_of};
use row_tools::{RowFault, all_met, cut, number};
use script_lines::{Command, LineFault, read_line};
use shx_term::{Edit, Limits, Memory, TermTriple};
use std::alloc::Global;
use std::test::Fail;

// A data text: the second base counts, `x:` is XML Schema, and there are four blank nodes without a label.
const STATED: &str = "@base <http://first/> . @base <http://b/c/> .
@prefix e: <http://e/> . @prefix : <http://d/> . @prefix é: <http://f/> .
@prefix x: <http://www.w3.org/2001/XMLSchema#> .
_:x e:p _:y . [] e:p [ e:q ( 1 2 ) ] .";

/// Adds what a line is read as behind `STATED`, where a line may have as many bytes as stands before its
/// mark.
pub(super) fn add_line(alloc: Global, row: &str, out: &mut Vec<u8>) -> Result<(), RowFault> {
    let (most, line) = cut(row, "|")?;
    let mut limits = Limits::program();
    limits.line = u64::from(number(most)?);
    let line = bytes_of(alloc, line)?;
    add_bytes(alloc, line.as_slice(), &limits, out)
}

// The bytes of a line that has a character for each.
fn bytes_of(alloc: Global, line: &str) -> Result<Vec<u8>, Memory> {
    let mut bytes = Vec::new(alloc);
    for character in line.chars() {
        let code = character as u32 % 256;
        bytes.push(code as u8)?;
    }
    Ok(bytes)
}

fn add_bytes(
    alloc: Global,
    line: &[u8],
    limits: &Limits,
    out: &mut Vec<u8>,
) -> Result<(), RowFault> {
    let document = document_of(alloc, STATED)?;
    match read_line(alloc, line, &document, limits) {
        Ok(command) => Ok(add_command(&command, out)?),
        Err(fault) => Ok(add_told(alloc, fault, out)?),
    }
}

fn add_told(alloc: Global, fault: LineFault, out: &mut Vec<u8>) -> Result<(), Memory> {
    let told = format!(in alloc; "{fault}")?;
    out.extend_from_slice(told.as_str().as_bytes())
}

// Adds what a line asks for.
fn add_command(command: &Command, out: &mut Vec<u8>) -> Result<(), Memory> {
    match command {
        Command::Edit(Edit::Insert(triple)) => add_triple("insert", triple, out),
        Command::Edit(Edit::Remove(triple)) => add_triple("remove", triple, out),
        Command::Report => add(&["report"], out),
        Command::Count => add(&["count"], out),
        Command::Begin => add(&["begin"], out),
        Command::Commit => add(&["commit"], out),
        Command::Abandon => add(&["abandon"], out),
        Command::Undo => add(&["undo"], out),
        Command::Redo => add(&["redo"], out),
        Command::Slice { shape, node } => {
            add(&["slice"], out)?;
            add_term(b' ', shape, out)?;
            add_term(b' ', node, out)
        }
        Command::Shapes(name) => add(&["shapes [", name.as_str(), "]"], out),
        Command::Nothing => add(&["nothing"], out),
    }
}

fn add_triple(word: &str, triple: &TermTriple, out: &mut Vec<u8>) -> Result<(), Memory> {
    add(&[word], out)?;
    add_term(b' ', &triple.s, out)?;
    add_term(b' ', &triple.p, out)?;
    add_term(b' ', &triple.o, out)
}

#[test]
fn lines_are_read_as_is_said(rt: HostRuntime) -> Result<(), Fail> {
    all_met(rt.alloc(), rows::ROWS, is_as_said)
}
