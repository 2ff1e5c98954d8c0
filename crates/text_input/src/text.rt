ghost use Rattle.std.specs.Prelude.{◌≡◌, ◌+◌, ◌<◌, ◌≤◌, [], true};
ghost use Rattle.shx_outside.specs.Told.{StaysAdmitted};
ghost use Rattle.text_input.specs.TextRead.{IsTextRead};
ghost use Rattle.text_input.specs.inner.Rest.{IsRestRead};

use crate::ReadFault;
use shx_outside::{Inputs, Role};
use std::alloc::Global;

/// How many bytes are asked for at a time.
const PIECE: usize = 8192;

/// Opens the text of a name for a role and reads it to its end, in pieces. Where the text has more than
/// `most` bytes, one byte past them is taken and no more, and the answer is `TooLong`. The role is opened
/// once, and only where the inputs fail, it may be left closed.
pub fn read_text<I: Inputs>(
    alloc: Global,
    host: &mut I,
    role: Role,
    name: &str,
    most: u64,
) -> Result<Vec<u8>, ReadFault>
    requires { I.admits host.old role name.now }
    ensures { IsTextRead role name.now most (I.state host.old) (I.state host.new)
        (I.admits host.old) (I.admits host.new) result }
{
    host.open(role, name)?;
    let mut text = Vec::new(alloc);
    read_rest(host, role, &mut text, most)?;
    Ok(text)
}

// Reads what is left of an opened text.
fn read_rest<I: Inputs>(
    host: &mut I,
    role: Role,
    text: &mut Vec<u8>,
    most: u64,
) -> Result<(), ReadFault>
    requires opened { (I.state host.old).opened role ≡ true }
    requires unread { text.old.items ≡ [] }
    ensures { IsRestRead role most (I.state host.old) (I.state host.new)
        (I.admits host.old) (I.admits host.new) text.new.items result }
{
    let mut piece = [0u8; PIECE];
    loop {
        let room = room_left(most, text.len());
        let count = host.read(role, &mut piece[..room])?;
        if count == 0 {
            return Ok(());
        }
        text.extend_from_slice(&piece[..count])?;
        if text.len() as u64 > most {
            return Err(ReadFault::TooLong);
        }
    }
}

// Room for what the text may still have and one byte more, or for a whole piece.
fn room_left(most: u64, len: usize) -> usize
    requires { len ≤ most }
    ensures some { 0 < result }
    ensures piece { result ≤ 8192 }
    ensures past { len + result ≤ most + 1 }
{
    let left = most - len as u64;
    if left < PIECE as u64 {
        left as usize + 1
    } else {
        PIECE
    }
}
