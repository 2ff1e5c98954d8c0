//! What is true of shapes that are accepted, as contracts of functions that do nothing.
ghost use Rattle.shape_check.specs.Laws.{AcceptedGraphsAreWellFormed, AcceptedShapesAreWellFormed};
ghost use Rattle.shape_check.specs.Laws.{BooleansHaveTruthValues, IntegersAreNumbers};

/// Declarations without a fault are well formed: what a layer above may read of them without a test.
pub fn accepted_shapes_are_well_formed()
    ensures shapes { AcceptedShapesAreWellFormed }
    ensures graph { AcceptedGraphsAreWellFormed }
{}

/// A literal that is accepted as a boolean or an integer has such a value, where it has no language tag.
pub fn accepted_literals_have_values()
    ensures booleans { BooleansHaveTruthValues }
    ensures integers { IntegersAreNumbers }
{}
