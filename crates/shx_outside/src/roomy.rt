ghost use Rattle.std.specs.Prelude.{◌≡◌, ◌<◌, ◌≤◌, ◌==◌, length, take, min, is_err, IfOk, OnErr};
ghost use Rattle.shx_outside.specs.Counted.{faults_after, HasCause};
ghost use Rattle.shx_outside.specs.Roomy.{roomy_told};
ghost use Rattle.shx_outside.specs.Told.{Grew, Fell, IsUsedUp};

use crate::counted::count_up;
use crate::{Failed, HonestSink, Sink};
use std::marker::Model;

/// The output into a sink in memory, which fails only where its room is used up, and counts that. No call
/// takes memory.
#[derive(Debug, Drop)]
pub struct Roomy {
    sink: HonestSink,
    pub(crate) faults: u64,
}

impl Model for Roomy {
    ghost use Rattle.shx_outside.specs.Roomy.{RoomyHeld};

    ghost Value = { RoomyHeld };

    ghost view = { λ a. record { sink = a.sink; faults = a.faults } };
}

impl Roomy {
    pub fn new(sink: HonestSink) -> Roomy
        ensures sink { result.sink ≡ sink }
        ensures faults { result.faults ≡ 0 }
    {
        Roomy { sink, faults: 0 }
    }

    /// The bytes that were put so far.
    pub fn bytes(&self) -> &[u8]
        ensures { result.now ≡ self.now.sink.bytes }
    {
        self.sink.bytes()
    }
}

impl Sink for Roomy {
    ghost state = { roomy_told };

    fn put(&mut self, piece: &[u8]) -> Result<usize, Failed>
        requires { 0 < length piece.now }
        ensures count { IfOk result (λ n. (0 < n) × (n ≤ length piece.now)) }
        ensures grew { IfOk result (λ n.
            Grew (roomy_told self.old).held (roomy_told self.new).held (take n piece.now)) }
        ensures fell { IfOk result (Fell (roomy_told self.old).room (roomy_told self.new).room) }
        ensures failed { OnErr result ((roomy_told self.new).held ≡ (roomy_told self.old).held) }
        ensures used_up { OnErr result (IsUsedUp (roomy_told self.old).room (roomy_told self.new).room) }
        ensures cause { HasCause self.old.faults self.new.faults result }

        ensures fails { is_err result ≡ (self.old.sink.room == 0) }
        ensures piece { IfOk result (λ n.
            n ≡ min (min self.old.sink.most self.old.sink.room) (length piece.now)) }
        ensures faults { self.new.faults ≡ faults_after self.old.faults result }
        ensures most { self.new.sink.most ≡ self.old.sink.most }
    {
        if self.sink.room() == 0 {
            count_up(&mut self.faults);
            return Err(Failed);
        }
        Ok(self.sink.put(piece))
    }
}
