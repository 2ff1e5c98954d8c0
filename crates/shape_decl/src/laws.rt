//! What is true of declarations, as contracts of functions that do nothing.
ghost use Rattle.std.specs.Prelude.{◌≡◌};
ghost use Rattle.shape_decl.specs.Laws.{DeclarationsAreOfShapes, ListsStandUnderTheirParameters};
ghost use Rattle.shape_decl.specs.Laws.{NamedMembersAreDeclared, NamedShapesAreDeclared};
ghost use Rattle.shape_decl.specs.Laws.{PathsAreReadFromValues, ShapesAreDistinct};
ghost use Rattle.shape_decl.specs.Laws.{ValuesStandUnderTheirPredicates};
ghost use Rattle.shape_decl.specs.Lists.{ListsAreRead};
ghost use Rattle.shape_decl.specs.Nesting.{PathsNestWithinTheirLimit};
ghost use Rattle.shape_decl.specs.Numbers.{DeclaredNumbersHaveTerms};
ghost use Rattle.shape_decl.specs.Paths.{PathsAreRead};
ghost use Rattle.shape_decl.specs.Shapes.{ShapesAreListed};

/// The members that are read of a list are those that it has; so it has no others.
pub fn lists_are_read()
    ensures { ListsAreRead }
{}

/// What is read as a path is a SHACL property path that keeps the limits of levels and of parts; and each
/// such path is read (SHACL, section 2.3.1).
pub fn paths_are_read()
    ensures { PathsAreRead }
{}

/// The nodes that are declared are the shapes, in term order, each once.
pub fn shapes_are_listed()
    ensures { ShapesAreListed }
{}

/// Declarations are of the shapes that are listed, in their order, and no shape is declared twice.
pub fn shapes_are_declared_once()
    ensures nodes { DeclarationsAreOfShapes }
    ensures distinct { ShapesAreDistinct }
{}

/// What a graph names as a shape is declared, where it is an IRI or a blank node.
pub fn named_shapes_are_declared()
    ensures values { NamedShapesAreDeclared }
    ensures members { NamedMembersAreDeclared }
{}

/// What a declaration has under a predicate of the vocabulary is what the graph states with it.
pub fn values_stand_under_their_predicates()
    ensures values { ValuesStandUnderTheirPredicates }
    ensures paths { PathsAreReadFromValues }
{}

/// The lists of a declaration stand in the order of the values that head them: those under a parameter are
/// the readings of its values.
pub fn lists_stand_under_their_parameters()
    ensures { ListsStandUnderTheirParameters }
{}

/// A path that is read nests no deeper than its limit, so that who recurses into it knows how deep that goes.
pub fn paths_nest_within_their_limit()
    ensures { PathsNestWithinTheirLimit }
{}

/// Each number in a declaration has a term: the node, values, heads, members, and predicates of the path.
pub fn declared_numbers_have_terms()
    ensures { DeclaredNumbersHaveTerms }
{}
