//! What is kept for readers, found by reader and by key.
ghost use Rattle.std.specs.Prelude.{◌≡◌, ◌↔◌, ◌⊎◌, ◌+◌, [], ◌∷◌, length, filter, is_some};
ghost use Rattle.std.specs.Prelude.{Contains, IsSome, IfOk, OnOk, OnErr};
ghost use Rattle.std.specs.Bool.{OnTrue, OnFalse};
ghost use Rattle.std.specs.Map.{values_of};
ghost use Rattle.std.specs.Option.{option_copied};
ghost use Rattle.shx_term.specs.InOrder.{Lists};
ghost use Rattle.graph_view.specs.declared.key.Key.{Key};
ghost use Rattle.read_records.specs.declared.reader.Reader.{Reader};
ghost use Rattle.read_records.specs.declared.reader.Reader.TheVariants.{OfPair};
ghost use Rattle.read_records.specs.Reader.{reader_cmp};
ghost use Rattle.read_records.specs.Recall.{pair_cmp};
ghost use Rattle.read_records.specs.Store.{MakesStaged, SameNotes, SameStaged, StagesFor};
ghost use Rattle.read_records.specs.Store.{coming_for, kept_for};
ghost use Rattle.read_records.specs.inner.Masks.{AreStaged, MasksAmong};
ghost use Rattle.read_records.specs.inner.Notes.{AreFilled, ComesToSame, HasNoted};

use crate::Reader;
use crate::filing::Filing;
use crate::noted::Noted;
use crate::notes::{Notes, enter_note, gathered_from, has_noted, replace_note, tidy};
use comp_core::Pair;
use graph_view::Key;
use shx_term::Memory;
use std::alloc::{AllocError, AllocFailed, Global};
use std::collections::BTreeMap;
use std::marker::Model;

/// What is kept for each reader, found by reader and by the keys that were read for it. Changes are staged,
/// which takes all the memory that they need, and then made at once.
#[derive(Drop)]
pub(crate) struct Store<T: Drop> {
    /// Whoever has something staged has an entry here too, so that a commit finds its place.
    kept: Notes<T>,
    staged: Notes<T>,
    /// Under each key whoever has it in an entry, so that what is staged stands there too.
    readings: Filing,
}

impl<T: Drop> Model for Store<T> {
    ghost use Rattle.read_records.specs.declared.noted.Noted.{Noted};
    ghost use Rattle.read_records.specs.Store.{Stored};
    ghost use Rattle.read_records.specs.inner.Notes.{IsStore};

    ghost Value = { Stored (Noted T) };

    ghost view = { λ a. record { kept = a.kept.entries; staged = a.staged.entries } };

    ghost invariant = { λ a. IsStore a.kept.entries a.staged.entries a.readings };
}

impl<T: Drop> Store<T> {
    /// Nothing is kept, and nothing staged. It takes no memory.
    pub(crate) fn new(alloc: Global) -> Store<T>
        ensures { result ≡ record { kept = []; staged = [] } }
    {
        Store {
            kept: BTreeMap::new(alloc),
            staged: BTreeMap::new(alloc),
            readings: Filing::new(alloc),
        }
    }

    /// This is kept, and nothing staged. The readings are gathered and sorted, which takes time `O(n log n)`
    /// for n keys, and memory for the readings twice more while they are sorted.
    pub(crate) fn of_kept(alloc: Global, kept: Notes<T>) -> Result<Store<T>, Memory>
        requires { AreFilled kept.entries }
        ensures { IfOk result (λ made. made ≡ record { kept = kept.entries; staged = [] }) }
    {
        let readings = gathered_from(alloc, &kept)?.in_order(alloc)?;
        Ok(Store {
            kept,
            staged: BTreeMap::new(alloc),
            readings,
        })
    }

    /// What is kept for a reader: `None` exactly where nothing is. It takes no memory, and logarithmic time.
    pub(crate) fn get(&self, reader: &Reader) -> Option<&Noted<T>>
        ensures { option_copied result ≡ kept_for self.now reader.now }
    {
        match self.kept.get(reader) {
            Some(Some(noted)) => Some(noted),
            _ => None,
        }
    }

    /// What is kept for a reader once what is staged is made. It takes no memory, and logarithmic time.
    pub(crate) fn coming(&self, reader: &Reader) -> Option<&Noted<T>>
        ensures { option_copied result ≡ coming_for self.now reader.now }
    {
        match self.staged.get(reader) {
            Some(Some(noted)) => Some(noted),
            Some(None) => None,
            None => self.get(reader),
        }
    }

    /// For how many readers something is kept. It takes no memory, and time linear in their number.
    pub(crate) fn count(&self) -> usize
        ensures { result ≡ length (filter (λ noted. is_some noted) (values_of self.now.kept)) }
    {
        self.kept.values().filter(|noted| noted.is_some()).count()
    }

    /// The pairs for which something is kept, by the numbers of shape and node. It takes linear time.
    pub(crate) fn pairs(&self, alloc: Global) -> Result<Vec<Pair>, Memory>
        ensures { IfOk result (λ pairs.
            Lists pair_cmp (λ p. IsSome (kept_for self.now (OfPair p))) pairs.items) }
    {
        let mut pairs = Vec::new(alloc);
        for (reader, noted) in &self.kept {
            if let Reader::OfPair(pair) = reader
                && noted.is_some()
            {
                pairs.push(*pair)?;
            }
        }
        Ok(pairs)
    }

    /// The readers for which something is kept that was read from one of these keys, each once: targets by
    /// the numbers of their shapes, and then pairs by the numbers of shape and node. It takes a look-up for
    /// each key, and one more for each reader that it finds.
    pub(crate) fn readers_of(&self, alloc: Global, keys: &[Key]) -> Result<Vec<Reader>, Memory>
        ensures { IfOk result (λ found. Lists reader_cmp
            (λ r. (key : Key) × (Contains keys.now key × HasNoted self.now.kept r key)) found.items) }
    {
        let mut found = Vec::new(alloc);
        for key in keys {
            self.add_readers(alloc, key, &mut found)?;
        }
        found.sort_unstable();
        found.dedup();
        Ok(found)
    }

    /// Adds the readers that have read the key.
    fn add_readers(&self, alloc: Global, key: &Key, found: &mut Vec<Reader>) -> Result<(), Memory>
        ensures { OnOk result ((r : Reader) → Contains found.new.items r
            ↔ (Contains found.old.items r ⊎ HasNoted self.now.kept r key.now)) }
    {
        for reader in &self.readings.readers_of(alloc, key)? {
            if has_noted(&self.kept, reader, key) {
                found.push(*reader)?;
            }
        }
        Ok(())
    }

    /// Stages what is to be kept for a reader, or that nothing is, in the place of what is staged for it. It
    /// takes all the memory that `commit` needs, and logarithmic time for each key. Where it is refused,
    /// nothing changes.
    pub(crate) fn stage(&mut self, reader: Reader, noted: Option<Noted<T>>) -> Result<(), Memory>
        ensures kept { SameNotes self.old self.new }
        ensures staged { OnOk result (StagesFor self.old self.new reader noted) }
        ensures refused { OnErr result (SameStaged self.old self.new) }
    {
        if let Err(refused) = enter_note(&mut self.kept, &mut self.readings, reader, &noted) {
            tidy(
                &mut self.kept,
                &self.staged,
                &mut self.readings,
                reader,
                &noted,
            );
            return Err(refused);
        }
        match self.staged.insert(reader, noted) {
            Ok(Some(replaced)) => tidy(
                &mut self.kept,
                &self.staged,
                &mut self.readings,
                reader,
                &replaced,
            ),
            Ok(None) => {}
            Err(AllocFailed { value: (_, noted) }) => {
                tidy(
                    &mut self.kept,
                    &self.staged,
                    &mut self.readings,
                    reader,
                    &noted,
                );
                return Err(AllocError);
            }
        }
        Ok(())
    }

    /// Stages that nothing is to be kept for these readers, but for those for which something is staged.
    /// Where it is refused, that is staged for some of them.
    pub(crate) fn mask(&mut self, readers: &[Reader]) -> Result<(), Memory>
        ensures kept { SameNotes self.old self.new }
        ensures only { MasksAmong self.old self.new readers.now }
        ensures staged { OnOk result (AreStaged self.new readers.now) }
    {
        for reader in readers {
            self.mask_one(*reader)?;
        }
        Ok(())
    }

    fn mask_one(&mut self, reader: Reader) -> Result<(), Memory>
        ensures kept { SameNotes self.old self.new }
        ensures only { MasksAmong self.old self.new (reader ∷ []) }
        ensures staged { OnOk result (AreStaged self.new (reader ∷ [])) }
    {
        if self.staged.contains_key(&reader) {
            return Ok(());
        }
        self.stage(reader, None)?;
        Ok(())
    }

    /// Makes what is staged, and then nothing is staged. It takes no memory, and logarithmic time for each
    /// key of what was kept.
    pub(crate) fn commit(&mut self)
        ensures kept { MakesStaged self.old self.new }
        ensures staged { self.new.staged ≡ [] }
    {
        while self.commit_first() {}
    }

    /// Makes the first of what is staged, where there is something.
    fn commit_first(&mut self) -> bool
        ensures made { ComesToSame self.old self.new }
        ensures fewer { OnTrue result (length self.old.staged ≡ length self.new.staged + 1) }
        ensures last { OnFalse result (self.old.staged ≡ []) }
        ensures done { OnFalse result (self.new.staged ≡ []) }
    {
        let Some((reader, noted)) = self.staged.pop_first() else {
            return false;
        };
        let replaced = replace_note(&mut self.kept, reader, noted);
        tidy(
            &mut self.kept,
            &self.staged,
            &mut self.readings,
            reader,
            &replaced,
        );
        true
    }

    /// Forgets what is staged. It takes no memory, and logarithmic time for each of its keys.
    pub(crate) fn drop_staged(&mut self)
        ensures kept { SameNotes self.old self.new }
        ensures staged { self.new.staged ≡ [] }
    {
        while self.drop_first() {}
    }

    /// Forgets the first of what is staged, where there is something.
    fn drop_first(&mut self) -> bool
        ensures kept { SameNotes self.old self.new }
        ensures fewer { OnTrue result (length self.old.staged ≡ length self.new.staged + 1) }
        ensures done { OnFalse result (self.new.staged ≡ []) }
    {
        let Some((reader, noted)) = self.staged.pop_first() else {
            return false;
        };
        tidy(
            &mut self.kept,
            &self.staged,
            &mut self.readings,
            reader,
            &noted,
        );
        true
    }
}
