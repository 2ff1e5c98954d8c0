ghost use Rattle.std.specs.Prelude.{◌≡◌, ◌++◌, [], None, Some, IfOk, OnOk, OnErr};
ghost use Rattle.std.specs.List.{IsDistinct};
ghost use Rattle.std.specs.Map.{keys_of, lookup};
ghost use Rattle.std.specs.Option.{option_copied};
ghost use Rattle.std.specs.Ordering.{eq_by_cmp};
ghost use Rattle.shx_term.specs.InOrder.{Lists};
ghost use Rattle.read_records.specs.declared.reader.Reader.{Reader};
ghost use Rattle.read_records.specs.Reader.{reader_cmp, same_reader};
ghost use Rattle.read_records.specs.Records.{reads_of, IsReachedBy, IsTouched};
ghost use Rattle.read_records.specs.Records.{SameRecords, SameChanges, Stages, Commits};

use crate::Reader;
use crate::noted::Noted;
use crate::store::Store;
use crate::touched::touched_keys;
use comp_core::Pair;
use graph_view::Reads;
use shx_term::{Memory, Triple};
use std::alloc::Global;
use std::marker::Model;

/// What each reader has read, found by reader and by key. Changes are staged, which takes all the memory that
/// they need, and then made at once.
///
/// A reader and its keys take 28 bytes for each key, and some 60 bytes beside.
pub struct Records {
    store: Store<()>,
}

// A derived drop is no call: each place where one ends would split into one path for each of its parts.
impl Drop for Records {
    fn drop(self) {
        let Records { store: _store } = self;
    }
}

impl Model for Records {
    ghost use Rattle.read_records.specs.Records.{Recorded};
    ghost use Rattle.read_records.specs.inner.Notes.{as_recorded};

    ghost Value = { Recorded };

    ghost view = { λ a. as_recorded a.store };
}

impl Records {
    /// Nothing is recorded, and nothing staged. It takes no memory.
    pub fn new(alloc: Global) -> Records
        ensures { result ≡ record { kept = []; staged = [] } }
    {
        Records {
            store: Store::new(alloc),
        }
    }

    /// These are recorded, and nothing staged. They are sorted, and so are their keys, which takes time
    /// `O(n log n)` for n keys, and memory for the keys twice more while they are sorted.
    pub fn of_all(alloc: Global, all: Vec<(Reader, Reads)>) -> Result<Records, Memory>
        requires once { IsDistinct same_reader (keys_of all.items) }
        ensures recorded { IfOk result (λ made. (reader : Reader)
            → reads_of made reader ≡ lookup (eq_by_cmp reader_cmp reader) all.items) }
        ensures staged { IfOk result (λ made. made.staged ≡ []) }
    {
        let kept = all
            .into_iter()
            .map(|(reader, reads)| (reader, Some(Noted { value: (), reads })))
            .collect(alloc)?;
        Ok(Records {
            store: Store::of_kept(alloc, kept)?,
        })
    }

    /// What is recorded for a reader: `None` exactly where nothing is. It takes no memory, and logarithmic
    /// time.
    pub fn reads_of(&self, reader: &Reader) -> Option<&Reads>
        ensures { option_copied result ≡ reads_of self.now reader.now }
    {
        match self.store.get(reader) {
            Some(noted) => Some(&noted.reads),
            None => None,
        }
    }

    /// The readers whose record has a key that the triple touches, each once: targets by the numbers of their
    /// shapes, and then pairs by the numbers of shape and node. It takes four look-ups, and one more for each
    /// that it finds.
    pub fn touched_by(&self, alloc: Global, t: &Triple) -> Result<Vec<Reader>, Memory>
        ensures { IfOk result (λ found. Lists reader_cmp (IsTouched self.now t.now) found.items) }
    {
        self.touched_by_change(alloc, &[*t], &[], &[])
    }

    /// The readers whose record has a key that one of the triples touches, or the answer of one of these
    /// pairs, each once and in the order of `touched_by`. It sorts the keys that the triples touch, and takes
    /// a look-up for each, and for each of the pairs, and one more for each reader that it finds.
    pub fn touched_by_change(
        &self,
        alloc: Global,
        added: &[Triple],
        removed: &[Triple],
        answers: &[Pair],
    ) -> Result<Vec<Reader>, Memory>
        ensures { IfOk result (λ found. Lists reader_cmp
            (IsReachedBy self.now (added.now ++ removed.now) answers.now) found.items) }
    {
        let mut keys = touched_keys(alloc, added, removed)?;
        for pair in answers {
            keys.push(pair.answer_key())?;
        }
        self.store.readers_of(alloc, &keys)
    }

    /// Stages what is to be recorded for a reader, in the place of what is staged for it. It takes all the
    /// memory that `commit` needs, and logarithmic time for each key. Where it is refused, nothing changes.
    pub fn stage(&mut self, reader: Reader, reads: Reads) -> Result<(), Memory>
        ensures recorded { SameRecords self.old self.new }
        ensures staged { OnOk result (Stages self.old self.new reader (Some reads)) }
        ensures refused { OnErr result (SameChanges self.old self.new) }
    {
        self.store.stage(reader, Some(Noted { value: (), reads }))
    }

    /// Stages that nothing is to be recorded for a reader, in the place of what is staged for it. Where it is
    /// refused, nothing changes.
    pub fn stage_removal(&mut self, reader: Reader) -> Result<(), Memory>
        ensures recorded { SameRecords self.old self.new }
        ensures staged { OnOk result (Stages self.old self.new reader None) }
        ensures refused { OnErr result (SameChanges self.old self.new) }
    {
        self.store.stage(reader, None)
    }

    /// Makes what is staged, and then nothing is staged. It takes no memory, and logarithmic time for each
    /// key of what was recorded.
    pub fn commit(&mut self)
        ensures recorded { Commits self.old self.new }
        ensures staged { self.new.staged ≡ [] }
    {
        self.store.commit();
    }

    /// Forgets what is staged. It takes no memory, and logarithmic time for each of its keys.
    pub fn drop_staged(&mut self)
        ensures recorded { SameRecords self.old self.new }
        ensures staged { self.new.staged ≡ [] }
    {
        self.store.drop_staged();
    }
}
