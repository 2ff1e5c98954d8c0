use super::{holds, named};
use row_tools::{RowFault, all_met, in_four, number};
use shx_outside::{
    Failed, FileInputs, HonestInputs, HonestSink, Inputs, Memory, MemoryInputs, MemorySink,
    NamedText, Role, Roomy, Sink,
};
use std::alloc::Global;
use std::test::Fail;
use std::{env, fs, process};

// Texts of two names, one of them twice.
fn named_texts(alloc: Global) -> Result<Vec<NamedText>, Memory> {
    let mut files = Vec::new(alloc);
    files.push(named(alloc, "shapes", "seventh")?)?;
    files.push(named(alloc, "data", "four")?)?;
    files.push(named(alloc, "shapes", "hidden")?)?;
    Ok(files)
}

// Whether that is what is read of a text, with a bar behind each piece; `!` stands for an opening that fails,
// and `?` for a read that does.
fn reads<I: Inputs>(inputs: &mut I, role: Role, name: &str, due: &str) -> bool
    requires { I.admits inputs.old role name.now }
{
    if inputs.open(role, name).is_err() {
        return due == "!";
    }
    let mut left = due.as_bytes();
    let mut room = [0u8; 8];
    for _ in 0..u64::MAX {
        match inputs.read(role, &mut room) {
            Ok(0) => return left.is_empty(),
            Ok(count) => match behind(left, &room[..count]) {
                Some(rest) => left = rest,
                None => return false,
            },
            Err(Failed) => return left == b"?".as_slice(),
        }
    }
    false
}

// What is due behind a piece and its bar, if the piece is due.
fn behind<'a>(due: &'a [u8], piece: &[u8]) -> Option<&'a [u8]> {
    due.strip_prefix(piece)?.strip_prefix(b"|")
}

// The number of the call that fails; and what is read, in pieces of three bytes, of the texts for the shapes,
// the data and the script, of which the last is not held.
const READ: &str = "0 sev|ent|h| fou|r| !";

const CUT_OFF: &str = "\
1 ! fou|r| !
2 ? fou|r| !
3 sev|? fou|r| !";

fn are_read(alloc: Global, row: &str) -> Result<bool, RowFault> {
    let (failing, shapes, data, script) = in_four(row, " ")?;
    let failing = vec![in alloc; u64::from(number(failing)?)]?;
    let mut inputs = MemoryInputs::new(named_texts(alloc)?, 3, failing);
    Ok(
        reads(&mut inputs, Role::Shapes, "shapes", shapes)
            && reads(&mut inputs, Role::Data, "data", data)
            && reads(&mut inputs, Role::Script, "script", script),
    )
}

#[test]
fn texts_are_read_to_their_end(rt: HostRuntime) -> Result<(), Fail> {
    all_met(rt.alloc(), READ, are_read)
}

#[test]
fn a_listed_call_fails(rt: HostRuntime) -> Result<(), Fail> {
    all_met(rt.alloc(), CUT_OFF, are_read)
}

// Whether honest inputs give their texts, and the empty one under a name that is not held.
fn are_read_honestly(alloc: Global) -> Result<bool, RowFault> {
    let mut inputs = HonestInputs::new(named_texts(alloc)?, 3);
    Ok(
        reads(&mut inputs, Role::Shapes, "shapes", "sev|ent|h|")
            && reads(&mut inputs, Role::Script, "script", "")
            && reads(&mut inputs, Role::Data, "data", "fou|r|"),
    )
}

#[test]
fn a_name_that_is_not_held_opens_the_empty_text(rt: HostRuntime) -> Result<(), Fail> {
    holds(are_read_honestly(rt.alloc()))
}

fn fails_at_the_second_put(alloc: Global) -> Result<bool, RowFault> {
    let mut sink = MemorySink::new(alloc, 2, vec![in alloc; 2]?);
    let puts = [sink.put(b"abc"), sink.put(b"c"), sink.put(b"c")];
    Ok(puts == [Ok(2), Err(Failed), Ok(1)] && sink.bytes() == b"abc".as_slice())
}

#[test]
fn the_second_put_fails(rt: HostRuntime) -> Result<(), Fail> {
    holds(fails_at_the_second_put(rt.alloc()))
}

// There is room for exactly the bytes that are put.
fn fails_without_room(alloc: Global) -> Result<bool, RowFault> {
    let mut held = HonestSink::new(alloc, 2);
    held.reserve(3)?;
    let count = held.put(b"abc");
    let room = held.room();
    let mut sink = Roomy::new(held);
    let puts = [sink.put(b"cd"), sink.put(b"d")];
    let shown = format!(in alloc; "{sink:?}")?;
    Ok(
        count == 2
            && room == 1
            && puts == [Ok(1), Err(Failed)]
            && sink.bytes() == b"abc".as_slice()
            && shown.as_str().ends_with("room: 0 }, faults: 1 }"),
    )
}

#[test]
fn a_put_without_room_fails(rt: HostRuntime) -> Result<(), Fail> {
    holds(fails_without_room(rt.alloc()))
}

#[test]
fn files_are_opened_by_their_paths(rt: HostRuntime) -> Result<(), Fail> {
    let path = format!(in rt.alloc();
        "{}/shx_outside_{}",
        env::temp_dir(&rt)?.as_str(),
        process::id(rt.process())
    )?;
    fs::write(&rt, path.as_str(), b"ten bytes.".as_slice())?;
    let inputs = &mut FileInputs::new(&rt);
    let is_read = reads(inputs, Role::Data, path.as_str(), "ten byte|s.|");
    fs::remove_file(&rt, path.as_str())?;
    holds(Ok(is_read))
}

// The first can't be opened, and the second can't be read.
#[test]
fn files_that_cannot_be_read_are_failures(rt: HostRuntime) -> Result<(), Fail> {
    let inputs = &mut FileInputs::new(&rt);
    holds(Ok(
        reads(inputs, Role::Script, "no/such/file", "!") && reads(inputs, Role::Script, "/", "?"),
    ))
}

fn are_given_back(alloc: Global) -> Result<bool, RowFault> {
    let NamedText { name, bytes } = named(alloc, "data", "four")?;
    let copy = name.copy(alloc)?;
    let is_kept = bytes.as_slice() == b"four".as_slice();
    let given = bytes.into_vec();
    Ok(copy.as_str() == "data" && is_kept && given.as_slice() == b"four".as_slice())
}

#[test]
fn names_and_bytes_are_given_back(rt: HostRuntime) -> Result<(), Fail> {
    holds(are_given_back(rt.alloc()))
}
