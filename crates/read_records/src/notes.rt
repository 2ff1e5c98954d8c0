//! Entries of readers: what is noted for each, and under which keys it stands for that.
ghost use Rattle.std.specs.Prelude.{◌≡◌, ◌↔◌, [], Some, IsTrue, IsSome, IfOk, OnOk};
ghost use Rattle.std.specs.Option.{option_copied};
ghost use Rattle.std.specs.BTreeMap.{Updates};
ghost use Rattle.read_records.specs.Reader.{reader_cmp};
ghost use Rattle.read_records.specs.Store.{note_at};
ghost use Rattle.read_records.specs.inner.Notes.{AddsPlace, AreNeeded, AreNeededBut, AreUnder, HasKey};
ghost use Rattle.read_records.specs.inner.Notes.{HasNoted, HavePlaces, HaveRead, HaveReadBut, IsStore};
ghost use Rattle.read_records.specs.inner.Notes.{IsUntidy, SameNoted, StandsFor, keys_noted};
ghost use Rattle.read_records.specs.inner.Filing.{AddsSome, Stands, StandsUnderEach, StaysIn, reading};
ghost use Rattle.graph_view.specs.declared.key.Key.{Key};

use crate::Reader;
use crate::filing::Filing;
use crate::gathered::Gathered;
use crate::noted::Noted;
use graph_view::Key;
use shx_term::Memory;
use std::alloc::Global;
use std::collections::BTreeMap;

/// What stands for readers: what is noted, or that nothing is.
pub(crate) type Notes<T> = BTreeMap<Reader, Option<Noted<T>>>;

/// Whether a key is among those that stand for a reader. It takes no memory.
pub(crate) fn has_noted<T: Drop>(notes: &Notes<T>, reader: &Reader, key: &Key) -> bool
    ensures { IsTrue result ↔ HasNoted notes.now.entries reader.now key.now }
{
    has_key(notes.get(reader), key)
}

fn has_key<T: Drop>(held: Option<&Option<Noted<T>>>, key: &Key) -> bool
    ensures { IsTrue result ↔ HasKey (option_copied held.entry) key.now }
{
    match held {
        Some(Some(noted)) => noted.reads.has(key),
        _ => false,
    }
}

/// Sees to it that a reader has an entry, and stands under each key that it is to have read: most of them
/// stand in its entry already, and are not looked up in the readings. Where it is refused, it may stand under
/// some.
pub(crate) fn enter_note<T: Drop>(
    notes: &mut Notes<T>,
    readings: &mut Filing,
    reader: Reader,
    noted: &Option<Noted<T>>,
) -> Result<(), Memory>
    requires { AreUnder notes.old.entries readings.old }
    ensures reads { SameNoted notes.old.entries notes.new.entries }
    ensures entries { HavePlaces notes.old.entries notes.new.entries }
    ensures readings { StaysIn readings.old readings.new }
    ensures vacant { AddsPlace notes.old.entries notes.new.entries reader }
    ensures only { AddsSome readings.old readings.new (keys_noted noted.now) reader }
    ensures entered { OnOk result (IsSome (note_at notes.new.entries reader)) }
    ensures stands { OnOk result (StandsFor readings.new noted.now reader) }
{
    make_place(notes, reader)?;
    match noted {
        Some(noted) => enter_keys(readings, notes.get(&reader), noted.reads.keys(), reader),
        None => Ok(()),
    }
}

// Enters a reader under each of these keys that its entry does not have.
fn enter_keys<T: Drop>(
    readings: &mut Filing,
    held: Option<&Option<Noted<T>>>,
    keys: &[Key],
    reader: Reader,
) -> Result<(), Memory>
    requires { (key : Key) → HasKey (option_copied held) key → Stands readings.old (reading key reader) }
    ensures stay { StaysIn readings.old readings.new }
    ensures only { AddsSome readings.old readings.new keys.now reader }
    ensures added { OnOk result (StandsUnderEach readings.new keys.now reader) }
{
    for key in keys {
        if !has_key(held, key) {
            readings.insert(*key, reader)?;
        }
    }
    Ok(())
}

fn make_place<T: Drop>(notes: &mut Notes<T>, reader: Reader) -> Result<(), Memory>
    ensures reads { SameNoted notes.old.entries notes.new.entries }
    ensures entries { HavePlaces notes.old.entries notes.new.entries }
    ensures vacant { AddsPlace notes.old.entries notes.new.entries reader }
    ensures entered { OnOk result (IsSome (note_at notes.new.entries reader)) }
{
    if !notes.contains_key(&reader) {
        notes.insert(reader, None)?;
    }
    Ok(())
}

/// Puts what is noted for a reader from now on into its entry, and gives back what stood there. It takes no
/// memory.
pub(crate) fn replace_note<T: Drop>(
    notes: &mut Notes<T>,
    reader: Reader,
    noted: Option<Noted<T>>,
) -> Option<Noted<T>>
    requires { IsSome (note_at notes.old.entries reader) }
    ensures put { Updates reader_cmp notes.old notes.new reader (Some noted) }
    ensures gone { note_at notes.old.entries reader ≡ Some result }
{
    match notes.insert(reader, noted) {
        Ok(Some(replaced)) => replaced,
        _ => unreachable!(),
    }
}

/// Takes out what is held for a reader and not needed any longer, now that this went. It takes no memory.
pub(crate) fn tidy<T: Drop>(
    kept: &mut Notes<T>,
    staged: &Notes<T>,
    readings: &mut Filing,
    reader: Reader,
    gone: &Option<Noted<T>>,
)
    requires { IsUntidy kept.old.entries staged.now.entries readings.old reader gone.now }
    ensures kept { SameNoted kept.old.entries kept.new.entries }
    ensures tidied { IsStore kept.new.entries staged.now.entries readings.new }
{
    forget_note(readings, kept, staged, reader, gone);
    vacate_place(kept, staged, &reader);
}

// Takes the entry of a reader out, where nothing is noted for it and it has none among the others. It takes
// no memory.
fn vacate_place<T: Drop>(notes: &mut Notes<T>, others: &Notes<T>, reader: &Reader)
    ensures reads { SameNoted notes.old.entries notes.new.entries }
    ensures entries { HavePlaces others.now.entries notes.old.entries
        → HavePlaces others.now.entries notes.new.entries }
    ensures needed { AreNeededBut notes.old.entries others.now.entries reader.now
        → AreNeeded notes.new.entries others.now.entries }
{
    let is_vacant = match notes.get(reader) {
        Some(None) => !others.contains_key(reader),
        Some(Some(_)) => false,
        None => false,
    };
    if is_vacant {
        notes.remove(reader);
    }
}

/// The readings of all that is noted.
pub(crate) fn gathered_from<T: Drop>(alloc: Global, notes: &Notes<T>) -> Result<Gathered, Memory>
    ensures under { IfOk result (λ gathered. AreUnder notes.now.entries gathered) }
    ensures read { IfOk result (λ gathered. HaveRead notes.now.entries [] gathered) }
{
    let mut gathered = Gathered::new(alloc);
    for (reader, noted) in notes {
        if let Some(noted) = noted {
            gathered.add_all(noted.reads.keys(), *reader)?;
        }
    }
    Ok(gathered)
}

// Takes a reader out from under the keys of what went, where it has not read them by either of its entries.
// It takes no memory.
fn forget_note<T: Drop>(
    readings: &mut Filing,
    kept: &Notes<T>,
    staged: &Notes<T>,
    reader: Reader,
    gone: &Option<Noted<T>>,
)
    ensures kept { AreUnder kept.now.entries readings.old → AreUnder kept.now.entries readings.new }
    ensures staged { AreUnder staged.now.entries readings.old → AreUnder staged.now.entries readings.new }
    ensures read { HaveReadBut kept.now.entries staged.now.entries readings.old reader (keys_noted gone.now)
        → HaveRead kept.now.entries staged.now.entries readings.new }
{
    let Some(noted) = gone else {
        return;
    };
    let kept = kept.get(&reader);
    let staged = staged.get(&reader);
    for key in noted.reads.keys() {
        if !has_key(kept, key) && !has_key(staged, key) {
            readings.remove(*key, reader);
        }
    }
}
