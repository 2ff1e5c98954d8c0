//! sh:class (SHACL, section 4.1.1).
ghost use Rattle.std.specs.Prelude.{◌≡◌, ◌++◌, IfOk, OnOk};
ghost use Rattle.graph_view.specs.Graph.{HasTerms};
ghost use Rattle.path_eval.specs.Superclasses.{AreSuperclassesOf};
ghost use Rattle.value_components.specs.Class.{class_hits, class_reads, class_reads_at, is_of_class};

use comp_core::kinds::CLASS;
use comp_core::{At, Component, Conform, Pair, ResultRow, add_unless};
use graph_view::{GraphView, Notes};
use path_eval::{Superclasses, paths_depend_on_their_reads};
use shx_term::{Id, Memory};
use std::alloc::Global;

/// Each value node is no literal, and a SHACL instance of the class.
#[derive(Drop)]
pub struct Class {
    /// The class.
    pub value: Id,
}

impl Class {
    /// The component with its parameter. It takes no memory.
    pub fn new(value: Id) -> Class
        ensures { result.value ≡ value }
    {
        Class { value }
    }

    /// Appends a result for each value node that is a literal, or no instance of the class, and notes what is
    /// read. All classes read the same at the same value nodes.
    pub fn add_hits<V: GraphView, N: Notes>(
        &self,
        alloc: Global,
        view: &V,
        known: &mut Superclasses,
        at: At,
        values: &[Id],
        reads: &mut N,
        out: &mut Vec<ResultRow>,
    ) -> Result<(), Memory>
        requires values { HasTerms (V.graph view.now) values.now }
        requires known { AreSuperclassesOf known.old (V.graph view.now) }
        ensures known { AreSuperclassesOf known.new (V.graph view.now) }
        ensures rows { OnOk result (out.new.items ≡ out.old.items
            ++ class_hits self.now (V.graph view.now) at values.now) }
        ensures reads { OnOk result (N.notes reads.old reads.new
            (class_reads (V.graph view.now) values.now)) }
    {
        for v in values {
            let is_fine = is_of_class(alloc, view, self.value, known, *v, reads)?;
            add_unless(alloc, is_fine, CLASS, at, *v, out)?;
        }
        Ok(())
    }
}

// Whether the node is no literal, and an instance of the class.
fn is_of_class<V: GraphView, N: Notes>(
    alloc: Global,
    view: &V,
    class: Id,
    known: &mut Superclasses,
    node: Id,
    reads: &mut N,
) -> Result<bool, Memory>
    requires known { AreSuperclassesOf known.old (V.graph view.now) }
    ensures known { AreSuperclassesOf known.new (V.graph view.now) }
    ensures answer { IfOk result (λ is. is ≡ is_of_class (V.graph view.now) class node) }
    ensures reads { OnOk result (N.notes reads.old reads.new (class_reads_at (V.graph view.now) node)) }
{
    if !view.pool().is_iri_or_blank(node) {
        return Ok(false);
    }
    known.is_instance(alloc, view, node, class, reads)
}

impl<'p> Component<'p> for Class {
    type Known = Superclasses;

    ghost use Rattle.std.specs.Prelude.{[]};
    ghost use Rattle.path_eval.specs.Superclasses.{AreSuperclassesOf};
    ghost use Rattle.value_components.specs.Class.{class_hits, class_reads};

    ghost knows = { AreSuperclassesOf };

    ghost is_read_of = { λ c terms. Unit };

    ghost numbers_of = { λ c. [] };

    ghost asks_of = { λ c vs. [] };

    ghost hits_of = { λ c g m at vs. class_hits c g at vs };

    ghost reads_of = { λ c g r at vs. class_reads g vs };

    fn asks(&self, _values: &[Id], _out: &mut Vec<Pair>) -> Result<(), Memory> {
        Ok(())
    }

    fn check<V: GraphView, C: Conform>(
        &'p self,
        alloc: Global,
        view: &V,
        _conform: &C,
        known: &mut Superclasses,
        at: At,
        values: &[Id],
        reads: &mut C::Noted,
        out: &mut Vec<ResultRow>,
    ) -> Result<(), Memory> {
        self.add_hits(alloc, view, known, at, values, reads, out)
    }

    fn laws() {
        paths_depend_on_their_reads();
    }
}
