//! The node of many types that is asked about again and again: its classes are kept.
ghost use Rattle.std.specs.Prelude.{◌≡◌, IfOk, IfSome, None, OnOk};
ghost use Rattle.shx_term.specs.Members.{Adds};
ghost use Rattle.graph_view.specs.Graph.{Graph, objects_of};
ghost use Rattle.path_eval.specs.declared.direction.Direction.{Direction};
ghost use Rattle.path_eval.specs.Superclasses.{AreClassesOf, IsRightOf, superclass_route};
ghost use Rattle.path_eval.specs.Values.{nodes_reached, path_reads};

use crate::Superclasses;
use crate::wider::Wider;
use graph_view::{GraphView, Key};
use shx_term::vocabulary::RDF_TYPE;
use shx_term::{Id, Memory};
use std::alloc::Global;

/// A node of more types than these has its classes kept once it was asked about more often than these in a
/// row.
pub(crate) const FEW: usize = 4;

/// The node of many types that was asked about last: how often in a row, and its classes once they are kept.
/// Each class is there once, so that they are no more than the graph has terms.
#[derive(Drop)]
pub(crate) struct Last {
    node: Id,
    asked: usize,
    kept: Option<Wider>,
}

impl Last {
    /// No node was asked about. It takes no memory.
    pub(crate) fn new() -> Last
        ensures { result.kept ≡ None }
    {
        Last {
            node: 0,
            asked: 0,
            kept: None,
        }
    }

    // How often in a row a node was asked about.
    fn asked_before(&self, node: Id) -> usize {
        if self.node == node { self.asked } else { 0 }
    }
}

impl Superclasses {
    /// The classes of a node, where they are kept.
    pub(crate) fn kept_of(&self, node: Id) -> Option<&Wider>
        ensures { (g : Graph) → IsRightOf self.now g
            → IfSome result (λ all. AreClassesOf g node all.now) }
    {
        if self.last.node != node {
            return None;
        }
        self.last.kept.as_ref()
    }

    /// Counts how often a node of these types is asked about in a row, and keeps its classes once that is
    /// often.
    pub(crate) fn ask_again<V: GraphView>(
        &mut self,
        alloc: Global,
        view: &V,
        node: Id,
        types: &[Id],
    ) -> Result<(), Memory>
        requires known { IsRightOf self.old (V.graph view.now) }
        requires types { types.now ≡ objects_of (V.graph view.now) node RDF_TYPE }
        ensures known { IsRightOf self.new (V.graph view.now) }
    {
        let asked = self.last.asked_before(node).saturating_add(1);
        let kept = None;
        self.last = Last { node, asked, kept };
        if asked <= FEW {
            return Ok(());
        }
        let kept = Some(self.all_of(alloc, view, node, types)?);
        self.last = Last { node, asked, kept };
        Ok(())
    }

    // The classes of a node of these types.
    fn all_of<V: GraphView>(
        &mut self,
        alloc: Global,
        view: &V,
        node: Id,
        types: &[Id],
    ) -> Result<Wider, Memory>
        requires known { IsRightOf self.old (V.graph view.now) }
        requires types { types.now ≡ objects_of (V.graph view.now) node RDF_TYPE }
        ensures known { IsRightOf self.new (V.graph view.now) }
        ensures all { IfOk result (λ all. AreClassesOf (V.graph view.now) node all) }
    {
        let mut all = Wider::new(alloc);
        all.reads.add(Key::Out(node, RDF_TYPE))?;
        for kind in types {
            self.add_above(alloc, view, *kind, &mut all)?;
        }
        Ok(all)
    }

    // Adds a class, and those above it, to others.
    fn add_above<V: GraphView>(
        &mut self,
        alloc: Global,
        view: &V,
        class: Id,
        all: &mut Wider,
    ) -> Result<(), Memory>
        requires known { IsRightOf self.old (V.graph view.now) }
        ensures known { IsRightOf self.new (V.graph view.now) }
        ensures classes { OnOk result (Adds all.old.classes.keys all.new.classes.keys
            (nodes_reached (V.graph view.now) Direction.Forward superclass_route class)) }
        ensures reads { OnOk result (Adds all.old.reads all.new.reads
            (path_reads (V.graph view.now) Direction.Forward superclass_route class)) }
    {
        self.find(alloc, view, class)?;
        match self.found.get(&class) {
            Some(wider) => all.add_all(wider),
            None => unreachable!(),
        }
    }
}
