ghost use Rattle.std.specs.Prelude.{◌≡◌, ◌<◌, ◌≤◌, length, take, IfOk, OnErr};
ghost use Rattle.shx_outside.specs.Counted.{HasCause};
ghost use Rattle.shx_outside.specs.Outside.{SinkState};
ghost use Rattle.shx_outside.specs.Told.{Grew, Fell, IsUsedUp};

use crate::Failed;

/// What takes the output.
pub trait Sink {
    /// What the sink tells of itself: the bytes that were put so far, the room for more, how often it failed.
    ghost state: { Self → SinkState };

    /// Appends some bytes of the piece's front, at least one, and answers their number.
    /// `Failed` appends nothing; a sink that tells its room fails only where it is used up.
    fn put(&mut self, piece: &[u8]) -> Result<usize, Failed>
        requires { 0 < length piece.now }
        ensures count { IfOk result (λ n. (0 < n) × (n ≤ length piece.now)) }
        ensures grew { IfOk result (λ n.
            Grew (state self.old).held (state self.new).held (take n piece.now)) }
        ensures fell { IfOk result (Fell (state self.old).room (state self.new).room) }
        ensures failed { OnErr result ((state self.new).held ≡ (state self.old).held) }
        ensures used_up { OnErr result (IsUsedUp (state self.old).room (state self.new).room) }
        ensures cause { HasCause (state self.old).faults (state self.new).faults result };
}
