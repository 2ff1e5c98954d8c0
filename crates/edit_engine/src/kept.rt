//! What is kept of a graph's targets and pairs, and how it is renewed at once.
ghost use Rattle.std.specs.Prelude.{◌≡◌, [], length, IfOk, OnOk, OnErr};
ghost use Rattle.pair_results.specs.PairResults.{Commits as CommitsRows, SameRows};
ghost use Rattle.read_records.specs.Recall.{KeepsRecalled, KeepsSame};
ghost use Rattle.read_records.specs.Records.{Commits, SameRecords};
ghost use Rattle.edit_engine.specs.inner.Kept.{IsIdle, SameKept};
ghost use Rattle.edit_engine.specs.inner.Staged.{IsAdopted, IsStaged, MayBeAdopted, MayBeStaged};

use crate::renewal::Renewal;
use crate::staging::{stage_gathered, stage_leaving, terms_are_distinct};
use pair_results::PairResults;
use read_records::{Recall, Records};
use shx_term::{Memory, Pool};
use std::alloc::{AllocError, Global};

/// What was read for each target and each pair itself, the results of each pair, and what nested pairs come
/// to.
pub(crate) struct Kept {
    pub(crate) records: Records,
    pub(crate) results: PairResults,
    pub(crate) recall: Recall,
    /// How many pairs there are.
    pub(crate) pairs: u64,
    /// How many there are once what is staged is made.
    pub(crate) coming: u64,
}

// A derived drop is no call: each place where it ends would split into one path for each of its parts.
impl Drop for Kept {
    fn drop(self) {
        let Kept {
            records: _records,
            results: _results,
            recall: _recall,
            pairs: _pairs,
            coming: _coming,
        } = self;
    }
}

impl Kept {
    /// What a renewal makes of nothing, of so many shapes. What is recorded is put in order once, so it takes
    /// far less time than to stage it all.
    pub(crate) fn adopt(
        alloc: Global,
        pool: &Pool,
        shapes: u32,
        renewal: Renewal,
        recall: Recall,
    ) -> Result<Kept, Memory>
        requires { MayBeAdopted pool.now.terms shapes renewal }
        ensures adopted { IfOk result (IsAdopted pool.now.terms shapes renewal) }
        ensures recall { IfOk result (λ kept. kept.recall ≡ recall) }
    {
        terms_are_distinct(pool);
        let pairs = renewal.entering.len() as u64;
        let mut results = PairResults::new(alloc, shapes)?;
        let all = renewal.gather(alloc, pool, &mut results)?;
        results.commit();
        let records = Records::of_all(alloc, all)?;
        Ok(Kept {
            records,
            results,
            recall,
            pairs,
            coming: pairs,
        })
    }

    /// Stages a renewal, which takes all the memory that it needs, beside what is staged of nested pairs.
    /// Where it is refused, nothing is staged, and the same is kept.
    pub(crate) fn stage(
        &mut self,
        alloc: Global,
        pool: &Pool,
        renewal: Renewal,
    ) -> Result<(), Memory>
        requires idle { IsIdle self.old }
        requires known { MayBeStaged pool.now.terms self.old renewal }
        ensures staged { OnOk result (IsStaged pool.now.terms self.old self.new renewal) }
        ensures pairs { self.new.pairs ≡ self.old.pairs }
        ensures recall { OnOk result (self.new.recall ≡ self.old.recall) }
        ensures refused { OnErr result (SameKept self.old self.new) }
    {
        let staged = self.stage_all(alloc, pool, renewal);
        if staged.is_err() {
            self.drop_staged();
        }
        staged
    }

    fn stage_all(&mut self, alloc: Global, pool: &Pool, renewal: Renewal) -> Result<(), Memory>
        requires idle { IsIdle self.old }
        requires known { MayBeStaged pool.now.terms self.old renewal }
        ensures staged { OnOk result (IsStaged pool.now.terms self.old self.new renewal) }
        ensures pairs { self.new.pairs ≡ self.old.pairs }
        ensures recall { self.new.recall ≡ self.old.recall }
        ensures records { SameRecords self.old.records self.new.records }
        ensures rows { SameRows self.old.results self.new.results }
        ensures places { length self.new.results.shapes ≡ length self.old.results.shapes }
    {
        terms_are_distinct(pool);
        let left = self.pairs - renewal.leaving.len() as u64;
        let Some(coming) = left.checked_add(renewal.entering.len() as u64) else {
            return Err(AllocError);
        };
        self.coming = coming;
        stage_leaving(
            alloc,
            pool,
            &renewal.leaving,
            &mut self.records,
            &mut self.results,
        )?;
        let all = renewal.gather(alloc, pool, &mut self.results)?;
        stage_gathered(&mut self.records, all)
    }

    /// Forgets what is staged. It takes no memory.
    pub(crate) fn drop_staged(&mut self)
        ensures { SameKept self.old self.new }
    {
        self.records.drop_staged();
        self.results.drop_staged();
        self.recall.drop_staged();
        self.coming = self.pairs;
    }

    /// Makes what is staged. It takes no memory.
    pub(crate) fn commit(&mut self)
        ensures records { Commits self.old.records self.new.records }
        ensures rows { CommitsRows self.old.results self.new.results }
        ensures places { length self.new.results.shapes ≡ length self.old.results.shapes }
        ensures pairs { self.new.pairs ≡ self.old.coming }
        ensures recall { KeepsRecalled self.old.recall self.new.recall }
        ensures idle { IsIdle self.new }
        ensures settled { self.new.recall.staged ≡ [] }
    {
        self.records.commit();
        self.results.commit();
        self.recall.commit();
        self.pairs = self.coming;
    }
}
