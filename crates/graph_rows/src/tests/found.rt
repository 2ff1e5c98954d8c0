//! What look-ups in a graph find.
use super::letters::{number, triple_of};
use graph_view::{GraphView, Key, Reads};
use row_tools::RowFault;
use shx_term::vocabulary::VOCABULARY_LEN;
use shx_term::{Id, Memory, Triple};
use std::alloc::Global;

/// What was found, one behind the other; for each key how many triples touch it, and how much was found up to
/// it; and whether each look-up read its key alone.
#[derive(Drop)]
pub(super) struct Found {
    ids: Vec<Id>,
    triples: Vec<Triple>,
    counts: Vec<u64>,
    reads: Reads,
    is_alone: bool,
}

// How many keys there are over the letters: of two letters in two ways, and of one in two ways.
const KEYS: u32 = 2 * 13 * 13 + 2 * 13;

// Another key over the letters for each number below `KEYS`.
fn key_at(number: u32) -> Key {
    let first = VOCABULARY_LEN + number / 13 % 13;
    let second = VOCABULARY_LEN + number % 13;
    match number / 13 {
        0..=12 => Key::Out(first, second),
        13..=25 => Key::In(first, second),
        26 => Key::Subject(second),
        _ => Key::Predicate(second),
    }
}

impl Found {
    pub(super) fn new(alloc: Global) -> Found {
        Found {
            ids: Vec::new(alloc),
            triples: Vec::new(alloc),
            counts: Vec::new(alloc),
            reads: Reads::new(alloc),
            is_alone: true,
        }
    }

    pub(super) fn triples(&self) -> &[Triple] {
        self.triples.as_slice()
    }

    // What was found in any order has to be the same once it is in order.
    fn add_ids(&mut self, any: Vec<Id>, found: Vec<Id>) -> Result<(), Memory> {
        self.is_alone &= any.as_slice() == found.as_slice();
        self.ids.extend_from_slice(&found)
    }

    fn add_under<V: GraphView>(
        &mut self,
        alloc: Global,
        view: &V,
        key: &Key,
    ) -> Result<(), Memory> {
        match *key {
            Key::Out(s, p) => {
                let any = view.objects_unsorted(alloc, s, p, &mut self.reads)?;
                let found = view.objects(alloc, s, p, &mut self.reads)?;
                self.add_ids(view.pool().in_order(any), found)
            }
            Key::In(p, o) => {
                let any = view.subjects_unsorted(alloc, p, o, &mut self.reads)?;
                let found = view.subjects(alloc, p, o, &mut self.reads)?;
                self.add_ids(view.pool().in_order(any), found)
            }
            Key::Subject(s) => {
                let found = view.triples_of(alloc, s, &mut self.reads)?;
                self.triples.extend_from_slice(&found)
            }
            Key::Predicate(p) => {
                let any = view.triples_with_unsorted(alloc, p, &mut self.reads)?;
                let found = view.triples_with(alloc, p, &mut self.reads)?;
                self.is_alone &= view.pool().triples_in_order(any) == found;
                self.triples.extend_from_slice(&found)
            }
            Key::Answer(_, _) => Ok(()),
        }
    }

    /// Looks up what is under a key, and how many triples touch it, up to one, to two, and all of them.
    pub(super) fn look_up<V: GraphView>(
        &mut self,
        alloc: Global,
        view: &V,
        key: &Key,
    ) -> Result<(), Memory> {
        let one = view.count_up_to(key, 1);
        let two = view.count_up_to(key, 2);
        let all = view.count_up_to(key, u64::MAX);
        self.reads.clear();
        self.add_under(alloc, view, key)?;
        if self.reads.keys() != [*key].as_slice() {
            self.is_alone = false;
        }
        let (ids, triples) = (self.ids.len() as u64, self.triples.len() as u64);
        self.counts
            .extend_from_slice(&[one, two, all, ids, triples])
    }

    /// Looks up what is under all keys over the letters, and how many triples are held.
    pub(super) fn look_up_all<V: GraphView>(
        &mut self,
        alloc: Global,
        view: &V,
    ) -> Result<(), Memory> {
        for number in 0..KEYS {
            self.look_up(alloc, view, &key_at(number))?;
        }
        Ok(self.counts.push(view.len())?)
    }

    pub(super) fn is_same(&self, other: &Found) -> bool {
        self.is_alone
            && other.is_alone
            && self.counts.as_slice() == other.counts.as_slice()
            && self.ids.as_slice() == other.ids.as_slice()
            && self.triples.as_slice() == other.triples.as_slice()
    }

    fn take_word(&mut self, word: &str) -> Result<(), RowFault> {
        match word.as_bytes() {
            [letter] => Ok(self.ids.push(number(*letter)?)?),
            _ => Ok(self.triples.push(triple_of(word)?)?),
        }
    }

    /// Takes letters and triples as found.
    pub(super) fn take(&mut self, words: &str) -> Result<(), RowFault> {
        for word in words.split_whitespace() {
            self.take_word(word)?;
        }
        Ok(())
    }

    /// Whether these letters or triples were found, by their key alone; `-` is for none.
    pub(super) fn is_as_due(&self, alloc: Global, due: &str) -> Result<bool, RowFault> {
        let mut wanted = Found::new(alloc);
        if due != "-" {
            wanted.take(due)?;
        }
        Ok(
            self.is_alone
                && self.ids.as_slice() == wanted.ids.as_slice()
                && self.triples.as_slice() == wanted.triples.as_slice(),
        )
    }
}
