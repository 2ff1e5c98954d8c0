//! What is true of alike shapes, as contracts of functions that do nothing.
ghost use Rattle.plan_swap.specs.Renumbered.{AlikeShapesFindAlike, AlikeShapesNestAlike};

/// A shape that is declared alike in two plans has the same results at each node of a graph, but for the
/// numbers of shapes, and the same is read for them; so it is for the pair itself, but for the numbers of
/// shapes in keys of answers.
pub fn alike_shapes_find_alike()
    ensures { AlikeShapesFindAlike }
{}

/// The same pairs are nested in it at each node, but for the numbers of their shapes, which are alike too.
pub fn alike_shapes_nest_alike()
    ensures { AlikeShapesNestAlike }
{}
