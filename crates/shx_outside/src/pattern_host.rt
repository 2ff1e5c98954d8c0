ghost use Rattle.std.specs.Prelude.{◌≡◌, ℕ, List, IfOk, IfErr};
ghost use Rattle.shx_outside.specs.declared.flags.Flags.{Flags};
ghost use Rattle.shx_outside.specs.declared.pattern_fault.PatternFault.TheVariants.{NoPattern};
ghost use Rattle.shx_outside.specs.Counted.{HasRefusalCause};
ghost use Rattle.shx_outside.specs.Outside.{FlaggedText, PatternState};
ghost use Rattle.shx_outside.specs.Patterns.{IsBuiltOf, IsNoPattern};
ghost use Rattle.shx_outside.specs.Told.{NotesRefused, StaysAdmitted};

use crate::{Flags, Pattern, PatternFault};
use std::alloc::Global;

/// What builds the patterns of the shapes.
pub trait PatternHost {
    /// Which texts may be built, with which flags.
    ghost admits: { Self → Flags → List ℕ → Type 0 };

    /// What the host tells of itself: how often it has refused a pattern that it might have built, and which
    /// it refused last.
    ghost state: { Self → PatternState };

    /// Builds what a text reads as under these flags, by the grammar of `regex`.
    ///
    /// `NoPattern` is answered only where that grammar reads no pattern, or one that nests too deep for it;
    /// `Refused` only where the count of refusals rose.
    fn build(&mut self, alloc: Global, text: &str, flags: Flags) -> Result<Pattern, PatternFault>
        requires { admits self.old flags text.now }
        ensures built { IfOk result (IsBuiltOf text.now flags) }
        ensures none { IfErr result (λ fault. fault ≡ NoPattern → IsNoPattern text.now flags) }
        ensures admitted { StaysAdmitted (admits self.old) (admits self.new) }
        ensures cause { HasRefusalCause (state self.old).faults (state self.new).faults result }
        ensures refused { NotesRefused (record { flags = flags; text = text.now })
            (state self.old).refused (state self.new).refused result };
}
