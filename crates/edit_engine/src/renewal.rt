//! What is to be kept from now on, and what is to be recorded of it.
ghost use Rattle.std.specs.Prelude.{◌≡◌, ◌<◌, length, All, IfOk, OnOk};
ghost use Rattle.std.specs.List.{IsDistinct};
ghost use Rattle.shx_term.specs.TermOrder.{same_term};
ghost use Rattle.comp_core.specs.Pairs.{same_pair};
ghost use Rattle.pair_results.specs.PairResults.{SameRows};
ghost use Rattle.edit_engine.specs.Renewal.{pairs_evaluated};
ghost use Rattle.edit_engine.specs.inner.Put.{HaveRows, answer_rows, entries_of};

use crate::staging::{gather_pairs, gather_targets};
use comp_core::{Pair, ShapeNo};
use graph_view::Reads;
use indexmap::IndexSet;
use pair_results::PairResults;
use read_records::Reader;
use shape_eval::PairAnswer;
use shx_term::{Memory, Pool};
use std::alloc::Global;

/// What is read for the target of a shape.
#[derive(Drop)]
pub(crate) struct TargetReads {
    pub shape: ShapeNo,
    pub reads: Reads,
}

/// A pair, and what it comes to.
#[derive(Drop)]
pub(crate) struct Evaluated {
    pub pair: Pair,
    pub answer: PairAnswer<Reads>,
}

/// What is to be kept from now on in the place of what is.
pub(crate) struct Renewal {
    /// What is read for each target that was touched.
    pub targets: Vec<TargetReads>,
    /// The pairs that are none any longer.
    pub leaving: IndexSet<Pair>,
    /// The pairs that were none before.
    pub entering: Vec<Pair>,
    pub evaluated: Vec<Evaluated>,
}

// A derived drop is no call: each place where it ends would split into one path for each of its parts.
impl Drop for Renewal {
    fn drop(self) {
        let Renewal {
            targets: _targets,
            leaving: _leaving,
            entering: _entering,
            evaluated: _evaluated,
        } = self;
    }
}

impl Renewal {
    /// What is to be recorded for its targets, and for its pairs, whose results it stages.
    pub(crate) fn gather(
        self,
        alloc: Global,
        pool: &Pool,
        results: &mut PairResults,
    ) -> Result<Vec<(Reader, Reads)>, Memory>
        requires distinct { IsDistinct same_term pool.now.terms }
        requires once { IsDistinct same_pair (pairs_evaluated self.evaluated.items) }
        requires known { All (λ p. p.node < length pool.now.terms) (pairs_evaluated self.evaluated.items) }
        requires within { All (λ p. p.shape < length results.old.shapes)
            (pairs_evaluated self.evaluated.items) }
        ensures rows { SameRows results.old results.new }
        ensures places { length results.new.shapes ≡ length results.old.shapes }
        ensures staged { OnOk result (HaveRows (λ found. found.pair) answer_rows pool.now.terms
            self.evaluated.items results.old results.new) }
        ensures gathered { IfOk result
            (λ all. all.items ≡ entries_of self.targets.items self.evaluated.items) }
    {
        let Renewal {
            targets,
            leaving: _leaving,
            entering: _entering,
            evaluated,
        } = self;
        let mut all = Vec::with_capacity(alloc, targets.len())?;
        gather_targets(targets, &mut all)?;
        gather_pairs(alloc, pool, evaluated, &mut all, results)?;
        Ok(all)
    }
}
