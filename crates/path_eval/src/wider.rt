//! Classes with what was read on the way to them, and the search for what is above a class, which takes over
//! what is known of others.
ghost use Rattle.std.specs.Prelude.{◌≡◌, ◌↔◌, [], ◌∷◌, Contains, IfOk, IsTrue, OnOk, nat_eq};
ghost use Rattle.std.specs.List.{list_any};
ghost use Rattle.shx_term.specs.Members.{Adds};
ghost use Rattle.graph_view.specs.Graph.{AllKnown};
ghost use Rattle.path_eval.specs.Superclasses.{AreAllWider, AreWider};
ghost use Rattle.path_eval.specs.inner.Climbed.{Follows, Meets, TakesOver, class_key};
ghost use Rattle.path_eval.specs.inner.Reached.{Joins};

use crate::Direction;
use crate::search::step;
use graph_view::{GraphView, Key, Notes, Reads};
use indexmap::{IndexMap, IndexSet};
use shx_term::vocabulary::RDFS_SUB_CLASS_OF;
use shx_term::{Id, Memory};
use std::alloc::Global;

/// Classes, with what was read on the way to them.
#[derive(Drop)]
pub(crate) struct Wider {
    pub(crate) classes: IndexSet<Id>,
    pub(crate) reads: Reads,
}

impl Wider {
    /// No classes. It takes no memory.
    pub(crate) fn new(alloc: Global) -> Wider
        ensures classes { result.classes.keys ≡ [] }
        ensures reads { result.reads ≡ [] }
    {
        Wider {
            classes: IndexSet::new(alloc),
            reads: Reads::new(alloc),
        }
    }

    /// Whether a class is among them. It notes what was read for them.
    pub(crate) fn tell<N: Notes>(&self, class: Id, reads: &mut N) -> Result<bool, Memory>
        ensures is { IfOk result (λ is. is ≡ list_any (nat_eq class) self.now.classes.keys) }
        ensures reads { OnOk result (N.notes reads.old reads.new self.now.reads) }
    {
        reads.add_reads(&self.reads)?;
        Ok(self.classes.contains(&class))
    }

    /// Adds others behind, but for those that are there, and what was read for them.
    pub(crate) fn add_all(&mut self, others: &Wider) -> Result<(), Memory>
        ensures classes { OnOk result
            (Joins self.old.classes.keys others.now.classes.keys self.new.classes.keys) }
        ensures reads { OnOk result (Adds self.old.reads self.new.reads others.now.reads) }
    {
        insert_all(&mut self.classes, others.classes.as_slice())?;
        self.reads.add_all(&others.reads)?;
        Ok(())
    }
}

fn insert_all(classes: &mut IndexSet<Id>, others: &[Id]) -> Result<(), Memory>
    ensures { OnOk result (Joins classes.old.keys others.now classes.new.keys) }
{
    for class in others {
        classes.insert(*class)?;
    }
    Ok(())
}

/// A search for what is above a class.
#[derive(Drop)]
struct Climb {
    wider: Wider,
    // How many classes were taken over, less what was looked up since.
    taken: usize,
}

impl Climb {
    fn new(alloc: Global) -> Climb
        ensures classes { result.wider.classes.keys ≡ [] }
        ensures reads { result.wider.reads ≡ [] }
    {
        Climb {
            wider: Wider::new(alloc),
            taken: 0,
        }
    }

    // Whether a class was looked up, here or for what was taken over.
    fn is_read(&self, class: Id) -> bool
        ensures { IsTrue result ↔ Contains self.now.wider.reads (class_key class) }
    {
        self.wider.reads.has(&Key::Out(class, RDFS_SUB_CLASS_OF))
    }

    // Takes over what is known of a class. What overlaps too much is left to be looked up: in all no more is
    // taken over than twice what is found, and as much as is looked up.
    fn take_over(&mut self, known: &Wider) -> Result<(), Memory>
        ensures { OnOk result (TakesOver known.now self.old.wider self.new.wider) }
    {
        let more = known.classes.len();
        let most = more.max(self.wider.classes.len()).saturating_mul(2);
        let taken = self.taken.saturating_add(more);
        if taken > most {
            return Ok(());
        }
        self.taken = taken;
        self.wider.add_all(known)?;
        Ok(())
    }

    // Adds a class that was met. Where it is known, it takes over what is above it.
    fn meet(&mut self, known: &IndexMap<Id, Wider>, class: Id) -> Result<(), Memory>
        ensures { OnOk result (Meets known.now.entries (class ∷ []) self.old.wider self.new.wider) }
    {
        self.wider.classes.insert(class)?;
        if self.is_read(class) {
            return Ok(());
        }
        match known.get(&class) {
            Some(wider) => self.take_over(wider),
            None => Ok(()),
        }
    }

    fn meet_all(&mut self, known: &IndexMap<Id, Wider>, classes: &[Id]) -> Result<(), Memory>
        ensures { OnOk result (Meets known.now.entries classes.now self.old.wider self.new.wider) }
    {
        for class in classes {
            self.meet(known, *class)?;
        }
        Ok(())
    }

    // Looks up what is directly above a class, if that was not done.
    fn follow<V: GraphView>(
        &mut self,
        alloc: Global,
        view: &V,
        known: &IndexMap<Id, Wider>,
        class: Id,
    ) -> Result<(), Memory>
        requires terms { AllKnown (V.graph view.now) }
        requires known { AreAllWider (V.graph view.now) known.now.entries }
        ensures { OnOk result (Follows (V.graph view.now) class self.old.wider self.new.wider) }
    {
        if self.is_read(class) {
            return Ok(());
        }
        let reads = &mut self.wider.reads;
        let above = step(
            alloc,
            view,
            Direction::Forward,
            RDFS_SUB_CLASS_OF,
            class,
            reads,
        )?;
        self.taken = self.taken.saturating_sub(above.len());
        self.meet_all(known, &above)
    }

    fn into_wider(self) -> Wider
        ensures { result ≡ self.wider }
    {
        let Climb { wider, taken: _ } = self;
        wider
    }
}

/// A class, and the classes of which it is a subclass, in however many steps. Each is looked up once at most,
/// and not at all once a known class below it was taken over.
pub(crate) fn wider_than<V: GraphView>(
    alloc: Global,
    view: &V,
    known: &IndexMap<Id, Wider>,
    class: Id,
) -> Result<Wider, Memory>
    requires { AreAllWider (V.graph view.now) known.now.entries }
    ensures { IfOk result (λ wider. AreWider (V.graph view.now) class wider) }
{
    let _ = view.pool();
    let mut climb = Climb::new(alloc);
    climb.wider.classes.insert(class)?;
    let mut at = 0;
    while at < climb.wider.classes.as_slice().len() {
        let next = climb.wider.classes.as_slice()[at];
        climb.follow(alloc, view, known, next)?;
        at += 1;
    }
    Ok(climb.into_wider())
}
