ghost use Rattle.std.specs.Prelude.{◌≡◌, ◌<◌, ◌≤◌, true, length, take, drop, min, is_some};
ghost use Rattle.shx_outside.specs.declared.role.Role.{Role};
ghost use Rattle.shx_outside.specs.OpenTexts.{bytes_named, is_held, left_for, whole_for, texts_told};
ghost use Rattle.shx_outside.specs.OpenTexts.{IsPieceOf, KeepsTexts};
ghost use Rattle.shx_outside.specs.Opens.{no_opens, with_open};
ghost use Rattle.shx_outside.specs.Told.{Took, IsAtEnd, OthersStay};

use crate::open_counts::OpenCounts;
use crate::places::{Place, Places, first_named, left_from, start_of};
use crate::{NamedText, Role};
use std::marker::Model;

/// Texts in memory, of which each role may have one opened, read in small pieces. No call fails or takes
/// memory.
#[derive(Debug, Drop)]
pub(crate) struct Texts {
    files: Vec<NamedText>,
    piece: usize,
    places: Places,
    opens: OpenCounts,
}

impl Model for Texts {
    ghost use Rattle.std.specs.Prelude.{◌<◌};
    ghost use Rattle.shx_outside.specs.OpenTexts.{OpenTexts};
    ghost use Rattle.shx_outside.specs.inner.Places.{texts_from, AreWithin};

    ghost Value = { OpenTexts };

    ghost view = { λ a. texts_from a.files.items a.piece a.places a.opens };

    ghost invariant = { λ a. (0 < a.piece) × AreWithin a.files.items a.places };
}

impl Texts {
    pub(crate) fn new(files: Vec<NamedText>, piece: usize) -> Texts
        requires { 0 < piece }
        ensures files { result.files ≡ files.items }
        ensures piece { result.piece ≡ piece }
        ensures closed { (role : Role) → left_for result role ≡ None }
        ensures opens { result.opens ≡ no_opens }
    {
        Texts {
            files,
            piece,
            places: Places::new(),
            opens: OpenCounts::new(),
        }
    }

    /// Whether a text has this name.
    pub(crate) fn holds(&self, name: &str) -> bool
        ensures { result ≡ is_held self.now.files name.now }
    {
        first_named(&self.files, name).is_some()
    }

    pub(crate) fn close(&mut self, role: Role)
        ensures left { left_for self.new role ≡ None }
        ensures opens { self.new.opens ≡ self.old.opens }
        ensures others { OthersStay role (texts_told 0 self.old) (texts_told 0 self.new) }
        ensures keeps { KeepsTexts self.old self.new }
    {
        self.places.set(role, None);
    }

    /// Opens the first text of this name, and the empty text where none has it.
    pub(crate) fn open(&mut self, role: Role, name: &str)
        ensures left { left_for self.new role ≡ Some (bytes_named self.old.files name.now) }
        ensures whole { whole_for self.new role ≡ Some (bytes_named self.old.files name.now) }
        ensures opens { self.new.opens ≡ with_open self.old.opens role }
        ensures others { OthersStay role (texts_told 0 self.old) (texts_told 0 self.new) }
        ensures keeps { KeepsTexts self.old self.new }
    {
        self.places.set(role, Some(start_of(&self.files, name)));
        self.opens.count(role);
    }

    /// Reads as much as a piece, the room and the text allow.
    pub(crate) fn read(&mut self, role: Role, room: &mut [u8]) -> usize
        requires opened { is_some (left_for self.old role) ≡ true }
        requires room { 0 < length room.old }
        ensures count { result ≤ length room.new }
        ensures piece { IsPieceOf (left_for self.old role) self.old.piece (length room.old) result }
        ensures took { Took (left_for self.old role) (left_for self.new role) (take result room.new) }
        ensures end { result ≡ 0 → IsAtEnd (left_for self.new role) }
        ensures opened { is_some (left_for self.new role) ≡ true }
        ensures whole { whole_for self.new role ≡ whole_for self.old role }
        ensures opens { self.new.opens ≡ self.old.opens }
        ensures others { OthersStay role (texts_told 0 self.old) (texts_told 0 self.new) }
        ensures keeps { KeepsTexts self.old self.new }
    {
        let Some(place) = self.places.get(role) else {
            unreachable!()
        };
        let left = left_from(&self.files, place);
        let count = copy_piece(left, self.piece, room);
        let next = Place {
            file: place.file,
            offset: place.offset + count,
        };
        self.places.set(role, Some(next));
        count
    }
}

// Copies the front of a text, as much of it as a piece and the room can take, and answers how much.
fn copy_piece(text: &[u8], piece: usize, room: &mut [u8]) -> usize
    ensures count { result ≡ min (min piece (length room.old)) (length text.now) }
    ensures copied { take result room.new ≡ take result text.now }
    ensures kept { drop result room.new ≡ drop result room.old }
{
    let count = piece.min(room.len()).min(text.len());
    room[..count].copy_from_slice(&text[..count]);
    count
}
