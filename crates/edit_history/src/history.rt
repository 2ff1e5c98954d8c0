ghost use Rattle.std.specs.Prelude.{◌≡◌, ◌<◌, ◌≤◌, ◌+◌, ◌-◌, [], None, length, OnOk, OnErr};
ghost use Rattle.std.specs.Option.{option_copied};
ghost use Rattle.edit_history.specs.History.{Commits, DropsStaged, MovesTo, Stages, latest};
ghost use Rattle.edit_history.specs.History.{redo_change, undo_change};

use crate::Net;
use shx_term::Memory;
use std::alloc::Global;
use std::marker::Model;

/// The latest changes of a graph, and how many of them are made; those behind were taken back. One more
/// change may be staged, so that it is entered without memory.
pub struct History {
    /// The changes, and the staged one behind them, if one is.
    changes: Vec<Net>,
    is_staged: bool,
    cursor: usize,
    depth: u32,
}

// A derived drop is no call: each place where one ends would split into one path for each of its parts.
impl Drop for History {
    fn drop(self) {
        let History {
            changes: _changes,
            is_staged: _is_staged,
            cursor: _cursor,
            depth: _depth,
        } = self;
    }
}

impl Model for History {
    ghost use Rattle.edit_history.specs.History.{Past};
    ghost use Rattle.edit_history.specs.inner.Kept.{IsPast, staged_in, visible};

    ghost Value = { Past };

    ghost view = { λ a. record {
      changes = visible a.is_staged a.changes.items;
      cursor = a.cursor;
      depth = a.depth;
      staged = staged_in a.is_staged a.changes.items;
    } };

    ghost invariant = { λ a. IsPast a.is_staged a.changes.items a.cursor a.depth };
}

impl History {
    /// No changes yet; at most so many are kept. It takes no memory.
    pub fn new(alloc: Global, depth: u32) -> History
        requires { 0 < depth }
        ensures { result ≡ record { changes = []; cursor = 0; depth = depth; staged = None } }
    {
        History {
            changes: Vec::new(alloc),
            is_staged: false,
            cursor: 0,
            depth,
        }
    }

    /// The next change, in the place of what is staged. It takes all memory that `commit` needs; where it is
    /// refused, nothing is staged.
    pub fn stage(&mut self, net: Net) -> Result<(), Memory>
        ensures staged { OnOk result (Stages self.old self.new net) }
        ensures refused { OnErr result (DropsStaged self.old self.new) }
    {
        self.drop_staged();
        self.changes.push(net)?;
        self.is_staged = true;
        Ok(())
    }

    /// The change that is staged, where one is.
    pub fn staged_net(&self) -> Option<&Net>
        ensures { option_copied result ≡ self.now.staged }
    {
        if self.is_staged {
            self.changes.last()
        } else {
            None
        }
    }

    /// Enters the change that is staged: what was taken back goes, and the first where there are too many.
    /// It takes no memory.
    pub fn commit(&mut self)
        ensures { Commits self.old self.new }
    {
        if !self.is_staged {
            return;
        }
        let last = self.changes.len() - 1;
        self.changes.swap(self.cursor, last);
        self.changes.truncate(self.cursor + 1);
        keep_latest(&mut self.changes, self.depth);
        self.cursor = self.changes.len();
        self.is_staged = false;
    }

    /// Forgets what is staged. It takes no memory.
    pub fn drop_staged(&mut self)
        ensures { DropsStaged self.old self.new }
    {
        if self.is_staged {
            let _staged = self.changes.pop();
            self.is_staged = false;
        }
    }

    /// The change to take back: `None` exactly where none is made.
    pub fn undo_net(&self) -> Option<&Net>
        ensures { option_copied result ≡ undo_change self.now }
    {
        if self.cursor == 0 {
            return None;
        }
        Some(&self.changes[self.cursor - 1])
    }

    /// It is taken back.
    pub fn undone(&mut self)
        requires { 0 < self.old.cursor }
        ensures { MovesTo self.old self.new (self.old.cursor - 1) }
    {
        self.cursor -= 1;
    }

    /// The change to make again: `None` exactly where none was taken back.
    pub fn redo_net(&self) -> Option<&Net>
        ensures { option_copied result ≡ redo_change self.now }
    {
        if self.cursor >= self.len() {
            return None;
        }
        Some(&self.changes[self.cursor])
    }

    /// It is made again.
    pub fn redone(&mut self)
        requires { self.old.cursor < length self.old.changes }
        ensures { MovesTo self.old self.new (self.old.cursor + 1) }
    {
        self.cursor += 1;
    }

    // How many changes there are, made or taken back.
    fn len(&self) -> usize
        ensures { result ≡ length self.now.changes }
    {
        if self.is_staged {
            self.changes.len() - 1
        } else {
            self.changes.len()
        }
    }
}

// Leaves the latest so many, of which there are at most one too many.
#[tactic(auto, using(crate::proofs::PastLemmas::latest_less, crate::proofs::PastLemmas::latest_one))]
fn keep_latest(changes: &mut Vec<Net>, depth: u32)
    requires { length changes.old.items ≤ depth + 1 }
    ensures { changes.new.items ≡ latest depth changes.old.items }
{
    if changes.len() > depth as usize {
        let _first = changes.remove(0);
    }
}
