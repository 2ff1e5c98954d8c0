//! The classes above a class, found once, and those of the node that is asked again and again.
ghost use Rattle.std.specs.Prelude.{◌≡◌, flat_map, IfOk, IsSome, OnOk, nat_eq};
ghost use Rattle.std.specs.List.{list_any};
ghost use Rattle.indexmap.specs.IndexMap.{get};
ghost use Rattle.graph_view.specs.Graph.{Graph};
ghost use Rattle.path_eval.specs.declared.direction.Direction.{Direction};
ghost use Rattle.path_eval.specs.Instances.{instance_route, is_instance};
ghost use Rattle.path_eval.specs.Superclasses.{AreSuperclassesOf, IsRightOf, superclass_route};
ghost use Rattle.path_eval.specs.Values.{nodes_reached, path_reads};

use crate::Direction;
use crate::last_node::{FEW, Last};
use crate::search::step;
use crate::wider::{Wider, wider_than};
use graph_view::{GraphView, Notes};
use indexmap::IndexMap;
use shx_term::vocabulary::RDF_TYPE;
use shx_term::{Id, Memory};
use std::alloc::Global;

// How many classes may be known in all, each as often as it stands above another.
const MOST: usize = 1_000_000;

/// Of classes that were asked about, the classes above them, with what was read to find these. They are right
/// of one graph.
pub struct Superclasses {
    pub(crate) found: IndexMap<Id, Wider>,
    known: usize,
    pub(crate) last: Last,
}

// A derived drop is no call: each place where one ends would split into one path for each of its parts.
impl Drop for Superclasses {
    fn drop(self) {
        let Superclasses {
            found: _found,
            known: _known,
            last: _last,
        } = self;
    }
}

impl Superclasses {
    /// Nothing is known. It takes no memory.
    pub fn new(alloc: Global) -> Superclasses
        ensures { (g : Graph) → AreSuperclassesOf result g }
    {
        Superclasses {
            found: IndexMap::new(alloc),
            known: 0,
            last: Last::new(),
        }
    }

    /// Whether a node is a SHACL instance of a class, as `is_instance` says. It costs a look-up of the node's
    /// types, and a look-up by hash for each; classes that are met first are searched. A node of many types
    /// costs one look-up by hash once it was asked about several times in a row.
    pub fn is_instance<V: GraphView, N: Notes>(
        &mut self,
        alloc: Global,
        view: &V,
        node: Id,
        class: Id,
        reads: &mut N,
    ) -> Result<bool, Memory>
        requires known { AreSuperclassesOf self.old (V.graph view.now) }
        ensures known { AreSuperclassesOf self.new (V.graph view.now) }
        ensures is { IfOk result (λ is. is ≡ is_instance (V.graph view.now) node class) }
        ensures reads { OnOk result (N.notes reads.old reads.new
            (path_reads (V.graph view.now) Direction.Forward instance_route node)) }
    {
        self.is_of_class(alloc, view, node, class, reads)
    }

    // The same, over what is known as it is taken apart.
    fn is_of_class<V: GraphView, N: Notes>(
        &mut self,
        alloc: Global,
        view: &V,
        node: Id,
        class: Id,
        reads: &mut N,
    ) -> Result<bool, Memory>
        requires known { IsRightOf self.old (V.graph view.now) }
        ensures known { IsRightOf self.new (V.graph view.now) }
        ensures is { IfOk result (λ is. is ≡ is_instance (V.graph view.now) node class) }
        ensures reads { OnOk result (N.notes reads.old reads.new
            (path_reads (V.graph view.now) Direction.Forward instance_route node)) }
    {
        if let Some(all) = self.kept_of(node) {
            return all.tell(class, reads);
        }
        let types = step(alloc, view, Direction::Forward, RDF_TYPE, node, reads)?;
        if types.len() > FEW {
            self.ask_again(alloc, view, node, &types)?;
        }
        self.is_of_any(alloc, view, &types, class, reads)
    }

    // Whether a class is one of some types, or is above one.
    fn is_of_any<V: GraphView, N: Notes>(
        &mut self,
        alloc: Global,
        view: &V,
        types: &[Id],
        class: Id,
        reads: &mut N,
    ) -> Result<bool, Memory>
        requires known { IsRightOf self.old (V.graph view.now) }
        ensures known { IsRightOf self.new (V.graph view.now) }
        ensures is { IfOk result (λ is. is ≡ list_any (nat_eq class)
            (flat_map (nodes_reached (V.graph view.now) Direction.Forward superclass_route) types.now)) }
        ensures reads { OnOk result (N.notes reads.old reads.new
            (flat_map (path_reads (V.graph view.now) Direction.Forward superclass_route) types.now)) }
    {
        let mut is = false;
        for kind in types {
            let wider = self.is_wider(alloc, view, *kind, class, reads)?;
            is |= wider;
        }
        Ok(is)
    }

    // Whether a class is another, or is above it.
    fn is_wider<V: GraphView, N: Notes>(
        &mut self,
        alloc: Global,
        view: &V,
        kind: Id,
        class: Id,
        reads: &mut N,
    ) -> Result<bool, Memory>
        requires known { IsRightOf self.old (V.graph view.now) }
        ensures known { IsRightOf self.new (V.graph view.now) }
        ensures is { IfOk result (λ is. is ≡ list_any (nat_eq class)
            (nodes_reached (V.graph view.now) Direction.Forward superclass_route kind)) }
        ensures reads { OnOk result (N.notes reads.old reads.new
            (path_reads (V.graph view.now) Direction.Forward superclass_route kind)) }
    {
        self.find(alloc, view, kind)?;
        match self.found.get(&kind) {
            Some(wider) => wider.tell(class, reads),
            None => unreachable!(),
        }
    }

    /// Sees to it that what is above a class is known.
    pub(crate) fn find<V: GraphView>(
        &mut self,
        alloc: Global,
        view: &V,
        class: Id,
    ) -> Result<(), Memory>
        requires known { IsRightOf self.old (V.graph view.now) }
        ensures known { IsRightOf self.new (V.graph view.now) }
        ensures found { OnOk result (IsSome (get nat_eq self.new.found class)) }
    {
        if self.found.contains_key(&class) {
            return Ok(());
        }
        let wider = wider_than(alloc, view, &self.found, class)?;
        self.make_room(wider.classes.len());
        self.found.insert(class, wider)?;
        Ok(())
    }

    // Counts so many classes more, and forgets the others where they are too many together.
    fn make_room(&mut self, more: usize)
        ensures { (g : Graph) → IsRightOf self.old g → IsRightOf self.new g }
    {
        let known = self.known.saturating_add(more);
        if known > MOST {
            self.found.clear();
            self.known = more;
            return;
        }
        self.known = known;
    }
}
