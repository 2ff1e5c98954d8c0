ghost use Rattle.std.specs.Prelude.{◌≡◌, ◌+◌, ◌-◌, ◌≤◌, [], ◌++◌, length};

use std::marker::Model;

/// How many bytes are gathered before they are put.
pub const ROOM: usize = 8192;

/// Bytes that are gathered on the stack. Contracts see them as a list.
#[derive(Drop)]
pub struct Pending {
    bytes: [u8; ROOM],
    len: usize,
}

impl Model for Pending {
    ghost use Rattle.std.specs.Prelude.{List, ℕ, ◌≤◌, take};

    ghost Value = { List ℕ };

    ghost view = { λ a. take a.len a.bytes };

    ghost invariant = { λ a. a.len ≤ 8192 };
}

impl Pending {
    /// Nothing is pending.
    pub fn new() -> Pending
        ensures { result ≡ [] }
    {
        Pending {
            bytes: [0; ROOM],
            len: 0,
        }
    }

    /// The bytes in order.
    pub fn as_slice(&self) -> &[u8]
        ensures { result.now ≡ self.now }
    {
        &self.bytes[..self.len]
    }

    /// How many more bytes have room.
    pub fn room(&self) -> usize
        ensures { result + length self.now ≡ 8192 }
    {
        ROOM - self.len
    }

    /// Queues a text that has room.
    pub fn push(&mut self, text: &[u8])
        requires { length self.old + length text.now ≤ 8192 }
        ensures { self.new ≡ self.old ++ text.now }
    {
        let end = self.len + text.len();
        self.bytes[self.len..end].copy_from_slice(text);
        self.len = end;
    }

    /// Nothing is pending any more.
    pub fn clear(&mut self)
        ensures { self.new ≡ [] }
    {
        self.len = 0;
    }
}
