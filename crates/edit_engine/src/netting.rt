//! What edits come to together.
ghost use Rattle.std.specs.Prelude.{◌≡◌, ◌++◌, ◌∷◌, [], IfOk, OnOk};
ghost use Rattle.std.specs.List.{filter_map};
ghost use Rattle.shx_term.specs.Edit.{stated_by};
ghost use Rattle.edit_engine.specs.Edits.{inserted_by, is_stated, net_of, removed_by, turns};
ghost use Rattle.edit_engine.specs.inner.Turned.{is_noted, net_noted, nowhere, place_after};
ghost use Rattle.edit_engine.specs.inner.Turned.{places_after, places_in};

use crate::Engine;
use crate::stated::find;
use edit_history::{Net, TermTriples};
use graph_view::{GraphEdit, GraphView};
use indexmap::IndexMap;
use shx_term::{Edit, Memory, TermKeys, TermTriple};
use std::alloc::Global;

/// The triples that edits want otherwise than the graph has them, each with the place of the edit since which
/// it is so.
type Turned<'a> = IndexMap<&'a TermTriple, usize, TermKeys>;

impl<V: GraphEdit> Engine<V> {
    /// What the edits add to the graph and remove from it when they are made in order: each triple once,
    /// those that are added in the order in which they come to stay. It takes a look-up and a hash for each
    /// edit.
    pub fn net_of(&self, alloc: Global, edits: &[Edit]) -> Result<Net, Memory>
        ensures { IfOk result (λ net. net ≡ net_of self.now.graph edits.now) }
    {
        let turned = self.turned_by(alloc, edits)?;
        net_among(alloc, edits, &turned)
    }

    fn turned_by<'a>(&self, alloc: Global, edits: &'a [Edit]) -> Result<Turned<'a>, Memory>
        ensures { IfOk result (λ turned. places_in turned
            ≡ places_after self.now.graph 0 nowhere edits.now) }
    {
        let mut turned: Turned<'a> = IndexMap::with_hasher(alloc, self.view.pool().keys());
        for (at, edit) in edits.iter().enumerate() {
            self.turn(&mut turned, at, edit)?;
        }
        Ok(turned)
    }

    // The edit turns its triple, unless one before it does; or what did is taken back.
    fn turn<'a>(&self, turned: &mut Turned<'a>, at: usize, edit: &'a Edit) -> Result<(), Memory>
        ensures { OnOk result (places_in turned.new
            ≡ place_after self.now.graph at (places_in turned.old) edit.now) }
    {
        let stated = stated_by(edit);
        if !self.turns(edit) {
            turned.swap_remove(&stated);
        } else if !turned.contains_key(&stated) {
            turned.insert(stated, at)?;
        }
        Ok(())
    }

    // Whether the edit wants its triple otherwise than the graph has it.
    fn turns(&self, edit: &Edit) -> bool
        ensures { result ≡ turns self.now.graph edit.now }
    {
        match edit {
            Edit::Insert(stated) => !self.states(stated),
            Edit::Remove(stated) => self.states(stated),
        }
    }

    /// Whether the graph holds the triple. It takes no memory.
    fn states(&self, stated: &TermTriple) -> bool
        ensures { result ≡ is_stated self.now.graph stated.now }
    {
        match find(self.view.pool(), stated).triple() {
            Some(triple) => self.view.contains(&triple),
            None => false,
        }
    }
}

fn stated_by(edit: &Edit) -> &TermTriple
    ensures { result.now ≡ stated_by edit.now }
{
    match edit {
        Edit::Insert(stated) | Edit::Remove(stated) => stated,
    }
}

// The triples of the edits at these places.
fn net_among(alloc: Global, edits: &[Edit], turned: &Turned) -> Result<Net, Memory>
    ensures { IfOk result (λ net. net ≡ net_noted (places_in turned.now) edits.now) }
{
    let mut added = Vec::new(alloc);
    let mut removed = Vec::new(alloc);
    for (at, edit) in edits.iter().enumerate() {
        if is_noted(turned, at, edit) {
            add_stated(alloc, edit, &mut added, &mut removed)?;
        }
    }
    Ok(Net {
        added: TermTriples::new(added),
        removed: TermTriples::new(removed),
    })
}

// Whether the place of its triple is that of the edit.
fn is_noted(turned: &Turned, at: usize, edit: &Edit) -> bool
    ensures { result ≡ is_noted (places_in turned.now) at edit.now }
{
    match turned.get(&stated_by(edit)) {
        Some(since) => *since == at,
        None => false,
    }
}

// Adds the triple of the edit to those that are added, or to those that are removed.
fn add_stated(
    alloc: Global,
    edit: &Edit,
    added: &mut Vec<TermTriple>,
    removed: &mut Vec<TermTriple>,
) -> Result<(), Memory>
    ensures added { OnOk result (added.new.items
        ≡ added.old.items ++ filter_map inserted_by (edit.now ∷ [])) }
    ensures removed { OnOk result (removed.new.items
        ≡ removed.old.items ++ filter_map removed_by (edit.now ∷ [])) }
{
    match edit {
        Edit::Insert(stated) => added.push(stated.copy(alloc)?)?,
        Edit::Remove(stated) => removed.push(stated.copy(alloc)?)?,
    }
    Ok(())
}
