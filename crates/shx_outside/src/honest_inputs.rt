ghost use Rattle.std.specs.Prelude.{◌≡◌, ◌<◌, ◌≤◌, length, take, true, is_ok, IsOk, IfOk, OnOk, OnErr};
ghost use Rattle.shx_outside.specs.declared.role.Role.{Role};
ghost use Rattle.shx_outside.specs.Counted.{opens_after, HasCause};
ghost use Rattle.shx_outside.specs.OpenTexts.{left_for, whole_for, texts_told, IsPieceOf, KeepsTexts};
ghost use Rattle.shx_outside.specs.Opens.{opens_of};
ghost use Rattle.shx_outside.specs.Outside.{admits_all};
ghost use Rattle.shx_outside.specs.Told.{Took, IsAtEnd, StaysAdmitted, SameTexts, OthersStay};

use crate::texts::Texts;
use crate::{Failed, Inputs, NamedText, Role};
use std::marker::Model;

/// Texts in memory, read in small pieces. No call fails or takes memory: a name that no text has opens the
/// empty text.
#[derive(Debug, Drop)]
pub struct HonestInputs {
    texts: Texts,
}

impl Model for HonestInputs {
    ghost use Rattle.shx_outside.specs.OpenTexts.{OpenTexts};

    ghost Value = { OpenTexts };

    ghost view = { λ a. a.texts };
}

impl HonestInputs {
    /// A read gives at most `piece` bytes. Where two texts have one name, the first counts.
    pub fn new(files: Vec<NamedText>, piece: usize) -> HonestInputs
        requires { 0 < piece }
        ensures files { result.files ≡ files.items }
        ensures piece { result.piece ≡ piece }
        ensures closed { (role : Role) → left_for result role ≡ None }
        ensures opens { (role : Role) → opens_of result.opens role ≡ 0 }
    {
        HonestInputs {
            texts: Texts::new(files, piece),
        }
    }
}

impl Inputs for HonestInputs {
    ghost admits = { admits_all };

    ghost state = { texts_told 0 };

    fn open(&mut self, role: Role, name: &str) -> Result<(), Failed>
        ensures opened { (texts_told 0 self.new).opened role ≡ is_ok result }
        ensures opens { opens_of self.new.opens role ≡ opens_after (opens_of self.old.opens role) result }
        ensures whole { OnOk result (whole_for self.new role ≡ (texts_told 0 self.old).text name.now) }
        ensures rest { OnOk result (left_for self.new role ≡ (texts_told 0 self.old).text name.now) }
        ensures others { OthersStay role (texts_told 0 self.old) (texts_told 0 self.new) }
        ensures admitted { StaysAdmitted (admits_all self.old) (admits_all self.new) }
        ensures texts { SameTexts (texts_told 0 self.old) (texts_told 0 self.new) }
        ensures cause { HasCause 0 0 result }

        ensures never_fails { IsOk result }
        ensures keeps { KeepsTexts self.old self.new }
    {
        self.texts.open(role, name);
        Ok(())
    }

    fn read(&mut self, role: Role, room: &mut [u8]) -> Result<usize, Failed>
        requires opened { (texts_told 0 self.old).opened role ≡ true }
        requires room { 0 < length room.old }
        ensures count { IfOk result (λ n. n ≤ length room.new) }
        ensures took { IfOk result (λ n.
            Took (left_for self.old role) (left_for self.new role) (take n room.new)) }
        ensures end { IfOk result (λ n. n ≡ 0 → IsAtEnd (left_for self.new role)) }
        ensures failed { OnErr result (left_for self.new role ≡ left_for self.old role) }
        ensures opened { (texts_told 0 self.new).opened role ≡ true }
        ensures opens { opens_of self.new.opens role ≡ opens_of self.old.opens role }
        ensures whole { whole_for self.new role ≡ whole_for self.old role }
        ensures others { OthersStay role (texts_told 0 self.old) (texts_told 0 self.new) }
        ensures admitted { StaysAdmitted (admits_all self.old) (admits_all self.new) }
        ensures texts { SameTexts (texts_told 0 self.old) (texts_told 0 self.new) }
        ensures cause { HasCause 0 0 result }

        ensures never_fails { IsOk result }
        ensures piece { IfOk result (IsPieceOf (left_for self.old role) self.old.piece (length room.old)) }
        ensures keeps { KeepsTexts self.old self.new }
    {
        Ok(self.texts.read(role, room))
    }
}
