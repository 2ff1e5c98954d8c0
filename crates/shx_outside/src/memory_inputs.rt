ghost use Rattle.std.specs.Prelude.{◌≡◌, ◌<◌, ◌≤◌, length, take, true, not, ◌||◌, is_ok, is_err};
ghost use Rattle.std.specs.Prelude.{IfOk, OnOk, OnErr};
ghost use Rattle.shx_outside.specs.declared.role.Role.{Role};
ghost use Rattle.shx_outside.specs.Counted.{next_count, faults_after, opens_after, HasCause};
ghost use Rattle.shx_outside.specs.MemoryInputs.{fails_next, inputs_told, KeepsInputs};
ghost use Rattle.shx_outside.specs.OpenTexts.{is_held, left_for, whole_for, IsPieceOf};
ghost use Rattle.shx_outside.specs.Opens.{opens_of};
ghost use Rattle.shx_outside.specs.Outside.{admits_all};
ghost use Rattle.shx_outside.specs.Told.{Took, IsAtEnd, StaysAdmitted, SameTexts, OthersStay};

use crate::counted::{count_up, next_call_fails};
use crate::texts::Texts;
use crate::{Failed, Inputs, NamedText, Role};
use std::marker::Model;

/// Texts in memory, read in small pieces, with calls that fail on demand. No call takes memory.
#[derive(Debug, Drop)]
pub struct MemoryInputs {
    texts: Texts,
    failing: Vec<u64>,
    calls: u64,
    pub(crate) faults: u64,
}

impl Model for MemoryInputs {
    ghost use Rattle.shx_outside.specs.MemoryInputs.{MemoryTexts};

    ghost Value = { MemoryTexts };

    ghost view = { λ a. record {
      texts = a.texts;
      failing = a.failing.items;
      calls = a.calls;
      faults = a.faults;
    } };
}

impl MemoryInputs {
    /// Calls of `open` and `read` are counted together from 1, and those whose number stands in `failing`
    /// fail. A read gives at most `piece` bytes.
    pub fn new(files: Vec<NamedText>, piece: usize, failing: Vec<u64>) -> MemoryInputs
        requires { 0 < piece }
        ensures files { result.texts.files ≡ files.items }
        ensures piece { result.texts.piece ≡ piece }
        ensures failing { result.failing ≡ failing.items }
        ensures calls { result.calls ≡ 0 }
        ensures faults { result.faults ≡ 0 }
        ensures closed { (role : Role) → left_for result.texts role ≡ None }
        ensures opens { (role : Role) → opens_of result.texts.opens role ≡ 0 }
    {
        MemoryInputs {
            texts: Texts::new(files, piece),
            failing,
            calls: 0,
            faults: 0,
        }
    }
}

impl Inputs for MemoryInputs {
    ghost admits = { admits_all };

    ghost state = { inputs_told };

    fn open(&mut self, role: Role, name: &str) -> Result<(), Failed>
        ensures opened { (inputs_told self.new).opened role ≡ is_ok result }
        ensures opens { opens_of self.new.texts.opens role
            ≡ opens_after (opens_of self.old.texts.opens role) result }
        ensures whole { OnOk result (whole_for self.new.texts role ≡ (inputs_told self.old).text name.now) }
        ensures rest { OnOk result (left_for self.new.texts role ≡ (inputs_told self.old).text name.now) }
        ensures others { OthersStay role (inputs_told self.old) (inputs_told self.new) }
        ensures admitted { StaysAdmitted (admits_all self.old) (admits_all self.new) }
        ensures texts { SameTexts (inputs_told self.old) (inputs_told self.new) }
        ensures cause { HasCause self.old.faults self.new.faults result }

        ensures fails { is_err result
            ≡ (fails_next self.old || not (is_held self.old.texts.files name.now)) }
        ensures calls { self.new.calls ≡ next_count self.old.calls }
        ensures faults { self.new.faults ≡ faults_after self.old.faults result }
        ensures keeps { KeepsInputs self.old self.new }
    {
        let is_listed = next_call_fails(&self.failing, &mut self.calls);
        if is_listed || !self.texts.holds(name) {
            self.texts.close(role);
            count_up(&mut self.faults);
            return Err(Failed);
        }
        self.texts.open(role, name);
        Ok(())
    }

    fn read(&mut self, role: Role, room: &mut [u8]) -> Result<usize, Failed>
        requires opened { (inputs_told self.old).opened role ≡ true }
        requires room { 0 < length room.old }
        ensures count { IfOk result (λ n. n ≤ length room.new) }
        ensures took { IfOk result (λ n.
            Took (left_for self.old.texts role) (left_for self.new.texts role) (take n room.new)) }
        ensures end { IfOk result (λ n. n ≡ 0 → IsAtEnd (left_for self.new.texts role)) }
        ensures failed { OnErr result (left_for self.new.texts role ≡ left_for self.old.texts role) }
        ensures opened { (inputs_told self.new).opened role ≡ true }
        ensures opens { opens_of self.new.texts.opens role ≡ opens_of self.old.texts.opens role }
        ensures whole { whole_for self.new.texts role ≡ whole_for self.old.texts role }
        ensures others { OthersStay role (inputs_told self.old) (inputs_told self.new) }
        ensures admitted { StaysAdmitted (admits_all self.old) (admits_all self.new) }
        ensures texts { SameTexts (inputs_told self.old) (inputs_told self.new) }
        ensures cause { HasCause self.old.faults self.new.faults result }

        ensures fails { is_err result ≡ fails_next self.old }
        ensures piece { IfOk result
            (IsPieceOf (left_for self.old.texts role) self.old.texts.piece (length room.old)) }
        ensures calls { self.new.calls ≡ next_count self.old.calls }
        ensures faults { self.new.faults ≡ faults_after self.old.faults result }
        ensures keeps { KeepsInputs self.old self.new }
    {
        if next_call_fails(&self.failing, &mut self.calls) {
            count_up(&mut self.faults);
            return Err(Failed);
        }
        Ok(self.texts.read(role, room))
    }
}
