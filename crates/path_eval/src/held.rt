//! A set of states in the order of their addition: a few lie side by side and are searched, and more are
//! found by hash.
ghost use Rattle.std.specs.Prelude.{◌≡◌, [], IfOk, OnOk};
ghost use Rattle.std.specs.List.{IsDistinct, list_any};
ghost use Rattle.indexmap.specs.IndexSet.{insert_key};
ghost use Rattle.path_eval.specs.inner.HeldStates.{held_states};
ghost use Rattle.path_eval.specs.inner.StateLaws.{same_state};

use crate::edge::State;
use indexmap::IndexSet;
use shx_term::Memory;
use std::alloc::Global;

/// How many states lie side by side at most.
const FEW: usize = 16;

/// Most searches meet a few states: these take one allocation, of eight bytes a state.
pub(crate) enum Held {
    Few(Vec<State>),
    Many(Box<IndexSet<State>>),
}

// A derived drop is no call: each place where a set ends would split into one path for each form.
impl Drop for Held {
    fn drop(self) {
        match self {
            Held::Few(_states) => {}
            Held::Many(_states) => {}
        }
    }
}

impl Held {
    pub(crate) fn new(alloc: Global) -> Held
        ensures { held_states result ≡ [] }
    {
        Held::Few(Vec::new(alloc))
    }

    pub(crate) fn as_slice(&self) -> &[State]
        ensures { result.now ≡ held_states self.now }
    {
        match self {
            Held::Few(states) => states.as_slice(),
            Held::Many(states) => states.as_slice(),
        }
    }

    /// Adds a state behind the others, if it is not there.
    pub(crate) fn insert(&mut self, state: State) -> Result<(), Memory>
        requires distinct { IsDistinct same_state (held_states self.old) }
        ensures added { OnOk result
            (held_states self.new ≡ insert_key same_state (held_states self.old) state) }
        ensures distinct { IsDistinct same_state (held_states self.new) }
    {
        match self {
            Held::Few(states) => {
                if is_listed(states, &state) {
                    return Ok(());
                }
                if states.len() < FEW {
                    states.push(state)?;
                    return Ok(());
                }
                let mut all = hashed(*states.allocator(), states)?;
                all.insert(state)?;
                *self = Held::Many(all);
                Ok(())
            }
            Held::Many(states) => {
                states.insert(state)?;
                Ok(())
            }
        }
    }
}

fn is_listed(states: &[State], state: &State) -> bool
    ensures { result ≡ list_any (same_state state.now) states.now }
{
    states.contains(state)
}

/// The states as a set in which they are found by hash.
fn hashed(alloc: Global, states: &[State]) -> Result<Box<IndexSet<State>>, Memory>
    requires { IsDistinct same_state states.now }
    ensures { IfOk result (λ all. all.value.keys ≡ states.now) }
{
    let mut all = IndexSet::with_capacity(alloc, 2 * FEW)?;
    for state in states {
        all.insert(*state)?;
    }
    Ok(Box::new(alloc, all)?)
}
