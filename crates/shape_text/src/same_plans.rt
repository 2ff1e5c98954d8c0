//! What plans that mean the same come to, as the contract of a function that does nothing.
ghost use Rattle.shape_text.specs.SamePlans.{PlansWriteTheSame};

/// Plans that mean the same declarations write the same of each graph: the same report in each format, of as
/// many results, at as many pairs, with as many nested ones. They may number the shapes in different orders.
pub fn plans_write_the_same()
    ensures { PlansWriteTheSame }
{}
