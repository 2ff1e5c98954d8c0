ghost use Rattle.std.specs.Prelude.{◌≡◌, ◌<◌, ◌≤◌, [], length, take, min, true, IsErr, IfOk, OnErr};
ghost use Rattle.shx_outside.specs.Counted.{next_count, faults_after, HasCause};
ghost use Rattle.shx_outside.specs.MemorySink.{put_fails, sink_told, KeepsPlan};
ghost use Rattle.shx_outside.specs.Told.{Grew, Fell, IsUsedUp};

use crate::counted::{count_up, next_call_fails};
use crate::{Failed, Sink};
use std::alloc::Global;
use std::marker::Model;

/// A sink in memory that takes small pieces, with puts that fail on demand. A put that finds no memory fails
/// too.
#[derive(Debug, Drop)]
pub struct MemorySink {
    bytes: Vec<u8>,
    piece: usize,
    failing: Vec<u64>,
    puts: u64,
    pub(crate) faults: u64,
}

impl Model for MemorySink {
    ghost use Rattle.std.specs.Prelude.{◌<◌};
    ghost use Rattle.shx_outside.specs.MemorySink.{MemoryHeld};

    ghost Value = { MemoryHeld };

    ghost view = { λ a. record {
      bytes = a.bytes.items;
      piece = a.piece;
      failing = a.failing.items;
      puts = a.puts;
      faults = a.faults;
    } };

    ghost invariant = { λ a. 0 < a.piece };
}

impl MemorySink {
    /// Puts are counted from 1, and those whose number stands in `failing` fail. A put takes at most `piece`
    /// bytes.
    pub fn new(alloc: Global, piece: usize, failing: Vec<u64>) -> MemorySink
        requires { 0 < piece }
        ensures bytes { result.bytes ≡ [] }
        ensures piece { result.piece ≡ piece }
        ensures failing { result.failing ≡ failing.items }
        ensures puts { result.puts ≡ 0 }
        ensures faults { result.faults ≡ 0 }
    {
        MemorySink {
            bytes: Vec::new(alloc),
            piece,
            failing,
            puts: 0,
            faults: 0,
        }
    }

    /// The bytes that were put so far.
    pub fn bytes(&self) -> &[u8]
        ensures { result.now ≡ self.now.bytes }
    {
        &self.bytes
    }
}

impl Sink for MemorySink {
    ghost state = { sink_told };

    fn put(&mut self, piece: &[u8]) -> Result<usize, Failed>
        requires { 0 < length piece.now }
        ensures count { IfOk result (λ n. (0 < n) × (n ≤ length piece.now)) }
        ensures grew { IfOk result (λ n.
            Grew (sink_told self.old).held (sink_told self.new).held (take n piece.now)) }
        ensures fell { IfOk result (Fell (sink_told self.old).room (sink_told self.new).room) }
        ensures failed { OnErr result (self.new.bytes ≡ self.old.bytes) }
        ensures used_up { OnErr result (IsUsedUp (sink_told self.old).room (sink_told self.new).room) }
        ensures cause { HasCause self.old.faults self.new.faults result }

        ensures listed { put_fails self.old ≡ true → IsErr result }
        ensures piece { IfOk result (λ n. n ≡ min self.old.piece (length piece.now)) }
        ensures puts { self.new.puts ≡ next_count self.old.puts }
        ensures faults { self.new.faults ≡ faults_after self.old.faults result }
        ensures plan { KeepsPlan self.old self.new }
    {
        let count = self.piece.min(piece.len());
        if next_call_fails(&self.failing, &mut self.puts)
            || self.bytes.extend_from_slice(&piece[..count]).is_err()
        {
            count_up(&mut self.faults);
            return Err(Failed);
        }
        Ok(count)
    }
}
