//! What is true of results at all, as contracts of functions that do nothing.
ghost use Rattle.pair_results.specs.PairResults.{StandInTermOrder};

/// The results of a shape are those of any nodes in the order of terms among which is each that has some.
pub fn results_stand_in_term_order()
    ensures { StandInTermOrder }
{}
