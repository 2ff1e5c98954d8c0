//! How the parts of a renewal are put in place: what is to be recorded is gathered, and results are staged.
ghost use Rattle.std.specs.Prelude.{◌≡◌, ◌<◌, ◌++◌, map, length, All, OnOk};
ghost use Rattle.std.specs.List.{IsDistinct};
ghost use Rattle.shx_term.specs.TermOrder.{same_term};
ghost use Rattle.comp_core.specs.Pairs.{same_pair};
ghost use Rattle.pair_results.specs.PairResults.{SameRows};
ghost use Rattle.read_records.specs.Reader.{same_reader};
ghost use Rattle.read_records.specs.Records.{SameRecords, change_of};
ghost use Rattle.read_records.specs.declared.reader.Reader.TheVariants.{OfPair};
ghost use Rattle.edit_engine.specs.Renewal.{pairs_evaluated};
ghost use Rattle.edit_engine.specs.inner.Put.{HaveRows, IsPut, answer_rows, entry_reader};
ghost use Rattle.edit_engine.specs.inner.Put.{entry_change, no_reads, no_rows, pair_entry, target_entry};

use crate::renewal::{Evaluated, TargetReads};
use comp_core::Pair;
use graph_view::Reads;
use indexmap::IndexSet;
use pair_results::PairResults;
use read_records::{Reader, Records};
use shx_term::{Memory, Pool};
use std::alloc::Global;

/// A pool holds no term twice.
pub(crate) fn terms_are_distinct(pool: &Pool)
    ensures { IsDistinct same_term pool.now.terms }
{
    let _ = pool.len();
}

/// Adds what is to be recorded for targets.
pub(crate) fn gather_targets(
    targets: Vec<TargetReads>,
    all: &mut Vec<(Reader, Reads)>,
) -> Result<(), Memory>
    ensures { OnOk result (all.new.items ≡ all.old.items ++ map target_entry targets.items) }
{
    for TargetReads { shape, reads } in targets {
        all.push((Reader::OfTarget(shape), reads))?;
    }
    Ok(())
}

/// Adds what is to be recorded for pairs, whose results it stages.
pub(crate) fn gather_pairs(
    alloc: Global,
    pool: &Pool,
    evaluated: Vec<Evaluated>,
    all: &mut Vec<(Reader, Reads)>,
    results: &mut PairResults,
) -> Result<(), Memory>
    requires distinct { IsDistinct same_term pool.now.terms }
    requires once { IsDistinct same_pair (pairs_evaluated evaluated.items) }
    requires known { All (λ p. p.node < length pool.now.terms) (pairs_evaluated evaluated.items) }
    requires within { All (λ p. p.shape < length results.old.shapes) (pairs_evaluated evaluated.items) }
    ensures rows { SameRows results.old results.new }
    ensures places { length results.new.shapes ≡ length results.old.shapes }
    ensures staged { OnOk result (HaveRows (λ found. found.pair) answer_rows pool.now.terms evaluated.items
        results.old results.new) }
    ensures gathered { OnOk result (all.new.items ≡ all.old.items ++ map pair_entry evaluated.items) }
{
    for Evaluated { pair, answer } in evaluated {
        results.stage(alloc, pair.shape, pool.term(pair.node), answer.rows)?;
        all.push((Reader::OfPair(pair), answer.reads))?;
    }
    Ok(())
}

/// Stages what was gathered.
pub(crate) fn stage_gathered(records: &mut Records, all: Vec<(Reader, Reads)>) -> Result<(), Memory>
    requires once { IsDistinct same_reader (map entry_reader all.items) }
    ensures records { SameRecords records.old records.new }
    ensures staged { OnOk result
        (IsPut entry_reader entry_change all.items (change_of records.old) (change_of records.new)) }
{
    for (reader, reads) in all {
        records.stage(reader, reads)?;
    }
    Ok(())
}

/// Stages that nothing is kept of some pairs.
pub(crate) fn stage_leaving(
    alloc: Global,
    pool: &Pool,
    leaving: &IndexSet<Pair>,
    records: &mut Records,
    results: &mut PairResults,
) -> Result<(), Memory>
    requires distinct { IsDistinct same_term pool.now.terms }
    requires once { IsDistinct same_pair leaving.now.keys }
    requires known { All (λ p. p.node < length pool.now.terms) leaving.now.keys }
    requires within { All (λ p. p.shape < length results.old.shapes) leaving.now.keys }
    ensures records { SameRecords records.old records.new }
    ensures rows { SameRows results.old results.new }
    ensures places { length results.new.shapes ≡ length results.old.shapes }
    ensures gone { OnOk result
        (IsPut OfPair no_reads leaving.now.keys (change_of records.old) (change_of records.new)) }
    ensures staged { OnOk result
        (HaveRows (λ p. p) no_rows pool.now.terms leaving.now.keys results.old results.new) }
{
    for pair in leaving {
        let rows = Vec::new(alloc);
        results.stage(alloc, pair.shape, pool.term(pair.node), rows)?;
        records.stage_removal(Reader::OfPair(*pair))?;
    }
    Ok(())
}
