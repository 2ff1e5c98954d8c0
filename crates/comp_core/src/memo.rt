//! What pairs come to, and where that is remembered.
ghost use Rattle.std.specs.Prelude.{◌≡◌, Option, OnErr, OnOk};
ghost use Rattle.std.specs.Option.{option_map};
ghost use Rattle.comp_core.specs.declared.pair.Pair.{Pair};
ghost use Rattle.comp_core.specs.Memo.{Remembered, RemembersAlso, RemembersSame, lent, remembered_of};

use crate::{Pair, ResultRow};
use graph_view::Notes;
use shx_term::Memory;

/// The results of a shape at a node, and what was read for it.
#[derive(Drop)]
pub struct PairAnswer<N: Notes> {
    pub rows: Vec<ResultRow>,
    pub reads: N,
}

/// The same, lent.
#[derive(Drop)]
pub struct Recalled<'a, N: Notes> {
    pub rows: &'a [ResultRow],
    pub reads: &'a N,
}

/// What remembers the answers of pairs, so that each is found once.
pub trait Memo {
    /// What notes the keys that were read for an answer.
    type Noted: Notes;

    /// What is remembered of a pair.
    ghost recalled: { Self → Pair → Option (Remembered Self.Noted) };

    /// What is remembered of it once more where what is remembered now is given up.
    ghost kept: { Self → Pair → Option (Remembered Self.Noted) };

    /// What is remembered of a pair: `None` exactly where nothing is. It takes no memory.
    fn find(&self, pair: &Pair) -> Option<Recalled<'_, Self::Noted>>
        ensures { option_map lent result ≡ recalled self.now pair.now };

    /// Remembers the answer of a pair, in the place of what was remembered of it. Where it is refused,
    /// nothing changes.
    fn remember(&mut self, pair: Pair, answer: PairAnswer<Self::Noted>) -> Result<(), Memory>
        ensures kept { RemembersSame (kept self.old) (kept self.new) }
        ensures remembered { OnOk result (RemembersAlso (recalled self.old) (recalled self.new) pair
            (remembered_of answer)) }
        ensures refused { OnErr result (RemembersSame (recalled self.old) (recalled self.new)) };
}
