//! One shape, checked at a node.
ghost use Rattle.std.specs.Prelude.{◌≡◌, ◌<◌, ◌++◌, true, All, List, flat_map, length, IfOk, OnOk};
ghost use Rattle.graph_view.specs.declared.key.Key.{Key};
ghost use Rattle.graph_view.specs.Graph.{Graph, HasTerms};
ghost use Rattle.graph_view.specs.Valid.{IsValidView};
ghost use Rattle.comp_core.specs.declared.pair.Pair.{Pair};
ghost use Rattle.value_components.specs.Class.{class_reads};
ghost use Rattle.shape_eval.specs.Constraint.{constraint_asks, constraint_hits, constraint_numbers};
ghost use Rattle.shape_eval.specs.Constraint.{constraint_reads, IsReadOf};
ghost use Rattle.shape_eval.specs.Known.{IsKnownOf};
ghost use Rattle.shape_eval.specs.Nested.{asked_pairs};
ghost use Rattle.shape_eval.specs.Results.{hits_of_each, reads_of_each, value_nodes, value_reads};
ghost use Rattle.shape_eval.specs.inner.Checked.{NotesUnlessClass, ReadsAsClass};

use crate::{Constraint, Known};
use comp_core::{At, Component, Conform, Pair, ResultRow};
use graph_view::{GraphView, Notes, Unnoted};
use path_eval::LaidPath;
use shx_term::{Id, Memory};
use std::alloc::Global;

/// The value nodes at a node (SHACL, section 3.7): of a property shape those to which its path leads, of a
/// node shape the node itself.
pub(crate) fn find_values<V: GraphView, N: Notes>(
    alloc: Global,
    view: &V,
    path: &Option<LaidPath>,
    node: Id,
    reads: &mut N,
) -> Result<Vec<Id>, Memory>
    requires { node < length (V.graph view.now).terms }
    ensures values { IfOk result (λ found. found.items ≡ value_nodes (V.graph view.now) path.now node) }
    ensures known { IfOk result (λ found. HasTerms (V.graph view.now) found.items) }
    ensures reads { OnOk result (N.notes reads.old reads.new (value_reads (V.graph view.now) path.now node)) }
{
    match path {
        None => {
            let mut found = Vec::new(alloc);
            found.push(node)?;
            Ok(found)
        }
        Some(path) => path.values(alloc, view, node, reads),
    }
}

/// The pairs that constraints ask, constraint by constraint.
pub(crate) fn asked_by(
    alloc: Global,
    constraints: &[Constraint],
    values: &[Id],
) -> Result<Vec<Pair>, Memory>
    ensures { IfOk result (λ asked. asked.items ≡ asked_pairs constraints.now values.now) }
{
    let mut asked = Vec::new(alloc);
    for constraint in constraints {
        constraint.asks(values, &mut asked)?;
    }
    Ok(asked)
}

/// The results of constraints, constraint by constraint, over answers for all that they ask.
pub(crate) fn check_each<'p, V: GraphView, C: Conform>(
    alloc: Global,
    view: &V,
    conform: &C,
    known: &mut Known<'p>,
    constraints: &'p [Constraint],
    at: At,
    values: &[Id],
    reads: &mut C::Noted,
) -> Result<Vec<ResultRow>, Memory>
    requires valid { IsValidView (V.graph view.now) }
    requires numbers { HasTerms (V.graph view.now) (flat_map constraint_numbers constraints.now) }
    requires read { All (λ c. IsReadOf c (V.graph view.now).terms) constraints.now }
    requires values { HasTerms (V.graph view.now) values.now }
    requires known { IsKnownOf known.old (V.graph view.now) }
    requires held { All (C.holds conform.now) (asked_pairs constraints.now values.now) }
    ensures known { IsKnownOf known.new (V.graph view.now) }
    ensures rows { IfOk result (λ rows. rows.items
        ≡ hits_of_each (V.graph view.now) (C.rows_of conform.now) constraints.now at values.now) }
    ensures reads { (r : Pair → List Key) → C.tells conform.now r
        → OnOk result (C.Noted.notes reads.old reads.new
        (reads_of_each (V.graph view.now) r constraints.now at values.now)) }
{
    let mut rows = Vec::new(alloc);
    let mut classes_noted = false;
    for constraint in constraints {
        check_next(
            alloc,
            view,
            conform,
            known,
            classes_noted,
            constraint,
            at,
            values,
            reads,
            &mut rows,
        )?;
        classes_noted |= is_class(constraint);
    }
    Ok(rows)
}

fn is_class(constraint: &Constraint) -> bool
    ensures { result ≡ true → (g : Graph) → ReadsAsClass g constraint.now }
{
    match constraint {
        Constraint::Class(_) => true,
        _ => false,
    }
}

// Appends the results of one constraint more, and notes what it reads. All parameters of sh:class read the
// same at the same value nodes, so what they read is noted for the first of them alone.
fn check_next<'p, V: GraphView, C: Conform>(
    alloc: Global,
    view: &V,
    conform: &C,
    known: &mut Known<'p>,
    classes_noted: bool,
    constraint: &'p Constraint,
    at: At,
    values: &[Id],
    reads: &mut C::Noted,
    rows: &mut Vec<ResultRow>,
) -> Result<(), Memory>
    requires valid { IsValidView (V.graph view.now) }
    requires numbers { HasTerms (V.graph view.now) (constraint_numbers constraint.now) }
    requires read { IsReadOf constraint.now (V.graph view.now).terms }
    requires values { HasTerms (V.graph view.now) values.now }
    requires known { IsKnownOf known.old (V.graph view.now) }
    requires held { All (C.holds conform.now) (constraint_asks constraint.now values.now) }
    ensures known { IsKnownOf known.new (V.graph view.now) }
    ensures rows { OnOk result (rows.new.items ≡ rows.old.items
        ++ constraint_hits constraint.now (V.graph view.now) (C.rows_of conform.now) at values.now) }
    ensures reads { (r : Pair → List Key) → C.tells conform.now r
        → OnOk result (NotesUnlessClass C.Noted.notes reads.old reads.new classes_noted
        (constraint_reads constraint.now (V.graph view.now) r at values.now)
        (class_reads (V.graph view.now) values.now)) }
{
    match constraint {
        Constraint::Class(class) if classes_noted => {
            let mut unnoted = Unnoted::new(alloc);
            class.add_hits(
                alloc,
                view,
                &mut known.superclasses,
                at,
                values,
                &mut unnoted,
                rows,
            )
        }
        _ => constraint.check(alloc, view, conform, known, at, values, reads, rows),
    }
}
