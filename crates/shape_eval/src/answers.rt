//! Answers that are found by hash.
ghost use Rattle.std.specs.Prelude.{◌≡◌, IfOk};
ghost use Rattle.std.specs.List.{IsDistinct};
ghost use Rattle.std.specs.Map.{keys_of};
ghost use Rattle.comp_core.specs.Pairs.{same_pair};
ghost use Rattle.indexmap.specs.IndexMap.{IsEmpty};

use comp_core::{Memo, Pair, PairAnswer, Recalled};
use graph_view::Notes;
use indexmap::IndexMap;
use shx_term::Memory;
use std::alloc::Global;

/// The answers of some pairs, found by hash. Nothing is taken back of what it remembers.
pub struct Answers<N: Notes> {
    answers: IndexMap<Pair, PairAnswer<N>>,
}

// A derived drop is no call: each place where these end would split into one path for each of their parts.
impl<N: Notes> Drop for Answers<N> {
    fn drop(self) {
        let Answers { answers: _answers } = self;
    }
}

impl<N: Notes> Answers<N> {
    /// No answers. It takes no memory.
    pub fn new(alloc: Global) -> Answers<N>
        ensures { IsEmpty result.answers }
    {
        Answers {
            answers: IndexMap::new(alloc),
        }
    }

    /// The answers, each with its pair; no pair is there twice.
    pub fn into_all(self, alloc: Global) -> Result<Vec<(Pair, PairAnswer<N>)>, Memory>
        ensures entries { IfOk result (λ all. all.items ≡ self.answers.entries) }
        ensures once { IfOk result (λ all. IsDistinct same_pair (keys_of all.items)) }
    {
        let Answers { answers } = self;
        // Its keys are distinct.
        let _ = answers.len();
        Ok(answers.into_iter().collect(alloc)?)
    }
}

impl<N: Notes> Memo for Answers<N> {
    type Noted = N;

    ghost use Rattle.std.specs.Prelude.{None, OnErr, OnOk};
    ghost use Rattle.comp_core.specs.Memo.{RemembersAlso, RemembersSame, remembered_of};
    ghost use Rattle.shape_eval.specs.Answered.{answered};

    ghost recalled = { answered };

    ghost kept = { λ answers p. None };

    fn find(&self, pair: &Pair) -> Option<Recalled<'_, N>> {
        match self.answers.get(pair) {
            Some(answer) => Some(Recalled {
                rows: &answer.rows,
                reads: &answer.reads,
            }),
            None => None,
        }
    }

    fn remember(&mut self, pair: Pair, answer: PairAnswer<N>) -> Result<(), Memory>
        ensures kept { RemembersSame {N = N} (λ p. None) (λ p. None) }
        ensures remembered { OnOk result
            (RemembersAlso (answered self.old) (answered self.new) pair (remembered_of answer)) }
        ensures refused { OnErr result (RemembersSame (answered self.old) (answered self.new)) }
    {
        let PairAnswer { mut rows, reads } = answer;
        // Most have fewer than a vector makes room for.
        rows.shrink_to_fit();
        self.answers.insert(pair, PairAnswer { rows, reads })?;
        Ok(())
    }
}
