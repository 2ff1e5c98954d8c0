ghost use Rattle.pair_slice.specs.Slice.{SlicesSuffice};

use shape_eval::results_depend_on_reads;

/// The triples that touch what was read for a pair suffice: over them alone the pair has the same results,
/// and the same is read for it.
pub fn slices_suffice()
    ensures { SlicesSuffice }
{
    results_depend_on_reads();
}
