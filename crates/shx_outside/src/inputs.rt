ghost use Rattle.std.specs.Prelude.{◌≡◌, ◌<◌, ◌≤◌, ℕ, List, true, length, take, is_ok, IfOk, OnOk, OnErr};
ghost use Rattle.shx_outside.specs.declared.role.Role.{Role};
ghost use Rattle.shx_outside.specs.Counted.{opens_after, HasCause};
ghost use Rattle.shx_outside.specs.Outside.{InputState};
ghost use Rattle.shx_outside.specs.Told.{Took, IsAtEnd, StaysAdmitted, SameTexts, OthersStay};

use crate::Role;
use std::error::Error;
use std::fmt;

/// The outside failed: an input could not be opened or read, or an output could not be written.
#[derive(Clone, Copy, Debug, PartialEq, Eq)]
pub struct Failed;

impl fmt::Display for Failed {
    fn fmt<W: fmt::Write>(&self, f: &mut fmt::Formatter<W>) -> fmt::Result {
        f.write_str("the outside failed")
    }
}

impl Error for Failed {}

/// Texts that are opened by name, one for each role, and read in pieces.
pub trait Inputs {
    /// Which names may be opened for a role.
    ghost admits: { Self → Role → List ℕ → Type 0 };

    /// What the inputs tell of themselves.
    ghost state: { Self → InputState };

    /// Opens a name for a role, from its first byte on. After `Failed` the role is not opened.
    fn open(&mut self, role: Role, name: &str) -> Result<(), Failed>
        requires { admits self.old role name.now }
        ensures opened { (state self.new).opened role ≡ is_ok result }
        ensures opens { (state self.new).opens role ≡ opens_after ((state self.old).opens role) result }
        ensures whole { OnOk result ((state self.new).whole role ≡ (state self.old).text name.now) }
        ensures rest { OnOk result ((state self.new).rest role ≡ (state self.old).text name.now) }
        ensures others { OthersStay role (state self.old) (state self.new) }
        ensures admitted { StaysAdmitted (admits self.old) (admits self.new) }
        ensures texts { SameTexts (state self.old) (state self.new) }
        ensures cause { HasCause (state self.old).faults (state self.new).faults result };

    /// Puts the next bytes into the front of `room` and answers their number, which is 0 only at the end.
    fn read(&mut self, role: Role, room: &mut [u8]) -> Result<usize, Failed>
        requires opened { (state self.old).opened role ≡ true }
        requires room { 0 < length room.old }
        ensures count { IfOk result (λ n. n ≤ length room.new) }
        ensures took { IfOk result (λ n.
            Took ((state self.old).rest role) ((state self.new).rest role) (take n room.new)) }
        ensures end { IfOk result (λ n. n ≡ 0 → IsAtEnd ((state self.new).rest role)) }
        ensures failed { OnErr result ((state self.new).rest role ≡ (state self.old).rest role) }
        ensures opened { (state self.new).opened role ≡ true }
        ensures opens { (state self.new).opens role ≡ (state self.old).opens role }
        ensures whole { (state self.new).whole role ≡ (state self.old).whole role }
        ensures others { OthersStay role (state self.old) (state self.new) }
        ensures admitted { StaysAdmitted (admits self.old) (admits self.new) }
        ensures texts { SameTexts (state self.old) (state self.new) }
        ensures cause { HasCause (state self.old).faults (state self.new).faults result };
}
