ghost use Rattle.std.specs.Prelude.{◌≡◌, ◌+◌, ◌<◌, [], ◌++◌, length, take, min, max, OnOk, OnErr};

use crate::Memory;
use std::alloc::Global;
use std::marker::Model;

/// A sink in memory that takes what it has room for, and never fails: room is asked for before.
#[derive(Debug, Drop)]
pub struct HonestSink {
    bytes: Vec<u8>,
    most: usize,
    room: usize,
}

impl Model for HonestSink {
    ghost use Rattle.std.specs.Prelude.{◌+◌, ◌<◌, ◌≤◌, vec_len, vec_capacity};
    ghost use Rattle.shx_outside.specs.HonestSink.{HonestHeld};

    ghost Value = { HonestHeld };

    ghost view = { λ a. record { bytes = a.bytes.items; most = a.most; room = a.room } };

    ghost invariant = { λ a. (0 < a.most) × (vec_len a.bytes + a.room ≤ vec_capacity a.bytes) };
}

impl HonestSink {
    /// A sink with no room. A put takes at most `most` bytes.
    pub fn new(alloc: Global, most: usize) -> HonestSink
        requires { 0 < most }
        ensures bytes { result.bytes ≡ [] }
        ensures most { result.most ≡ most }
        ensures room { result.room ≡ 0 }
    {
        HonestSink {
            bytes: Vec::new(alloc),
            most,
            room: 0,
        }
    }

    /// Makes room for so many bytes more. It alone takes memory.
    pub fn reserve(&mut self, room: usize) -> Result<(), Memory>
        ensures made { OnOk result (self.new.room ≡ max self.old.room room) }
        ensures refused { OnErr result (self.new.room ≡ self.old.room) }
        ensures bytes { self.new.bytes ≡ self.old.bytes }
        ensures most { self.new.most ≡ self.old.most }
    {
        self.bytes.reserve(room)?;
        self.room = self.room.max(room);
        Ok(())
    }

    /// How many bytes more can be put.
    pub fn room(&self) -> usize
        ensures { result ≡ self.now.room }
    {
        self.room
    }

    /// Appends some bytes of the piece's front, at least one, and answers their number.
    pub fn put(&mut self, piece: &[u8]) -> usize
        requires piece { 0 < length piece.now }
        requires room { 0 < self.old.room }
        ensures some { 0 < result }
        ensures count { result ≡ min (min self.old.most self.old.room) (length piece.now) }
        ensures bytes { self.new.bytes ≡ self.old.bytes ++ take result piece.now }
        ensures room { self.old.room ≡ self.new.room + result }
        ensures most { self.new.most ≡ self.old.most }
    {
        let count = self.most.min(self.room).min(piece.len());
        let Ok(()) = self.bytes.extend_from_slice(&piece[..count]) else {
            unreachable!()
        };
        self.room -= count;
        count
    }

    /// The bytes that were put so far.
    pub fn bytes(&self) -> &[u8]
        ensures { result.now ≡ self.now.bytes }
    {
        &self.bytes
    }
}
