use crate::{Constraint, Target};
use path_eval::LaidPath;
use shx_term::Id;

/// A shape of a plan (SHACL, section 2).
#[derive(Drop)]
pub struct PlanShape {
    /// The node that it is in the shapes graph.
    pub node: Id,
    /// The path of a property shape; `None` of a node shape.
    pub path: Option<LaidPath>,
    /// The severity of its results (SHACL, section 2.1.4).
    pub severity: Id,
    /// The messages of its results (SHACL, section 2.1.5), in term order, each once.
    pub messages: Vec<Id>,
    /// Whether it is passed over (SHACL, section 2.1.6).
    pub deactivated: bool,
    /// Its targets (SHACL, section 2.1.3).
    pub targets: Vec<Target>,
    /// Its constraints, by component and then by parameter in term order.
    pub constraints: Vec<Constraint>,
}
