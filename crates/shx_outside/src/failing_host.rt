ghost use Rattle.std.specs.Prelude.{◌≡◌, ◌≢◌, true, false, IfOk, IfErr};
ghost use Rattle.shx_outside.specs.declared.pattern_fault.PatternFault.TheVariants.{NoPattern, Refused};
ghost use Rattle.shx_outside.specs.declared.pattern_fault.PatternFault.TheVariants.{Memory};
ghost use Rattle.shx_outside.specs.Counted.{next_count, HasRefusalCause, refusals_after};
ghost use Rattle.shx_outside.specs.FailingHost.{refuses_next, refusing_told};
ghost use Rattle.shx_outside.specs.Outside.{PatternState};
ghost use Rattle.shx_outside.specs.Patterns.{IsBuiltOf, IsNoPattern};
ghost use Rattle.shx_outside.specs.Told.{NotesRefused, StaysAdmitted};

use crate::counted::{count_up, next_call_fails};
use crate::refused_pattern::RefusedPattern;
use crate::{Flags, Pattern, PatternFault, PatternHost};
use std::alloc::Global;
use std::marker::Model;

/// A host over another one, with calls that are refused on demand. It has a count of its own, which rises
/// where the other host refuses, too, and keeps the last pattern that was refused.
#[derive(Debug, Drop)]
pub struct FailingHost<P: PatternHost> {
    inner: P,
    failing: Vec<u64>,
    calls: u64,
    faults: u64,
    refused: Option<RefusedPattern>,
}

impl<P: PatternHost> Model for FailingHost<P> {
    ghost use Rattle.shx_outside.specs.FailingHost.{FailingCalls};

    ghost Value = { FailingCalls P };

    ghost view = { λ a. record {
      inner = a.inner;
      failing = a.failing.items;
      calls = a.calls;
      faults = a.faults;
      refused = a.refused;
    } };
}

impl<P: PatternHost> FailingHost<P> {
    /// Calls of `build` are counted from 1, and those whose number stands in `failing` are refused.
    pub fn new(inner: P, failing: Vec<u64>) -> FailingHost<P>
        ensures inner { result.inner ≡ inner }
        ensures failing { result.failing ≡ failing.items }
        ensures calls { result.calls ≡ 0 }
        ensures faults { result.faults ≡ 0 }
        ensures refused { result.refused ≡ None }
    {
        FailingHost {
            inner,
            failing,
            calls: 0,
            faults: 0,
            refused: None,
        }
    }

    // Counts a refusal, and keeps what was refused.
    fn note(&mut self, pattern: RefusedPattern)
        ensures faults { self.new.faults ≡ next_count self.old.faults }
        ensures refused { self.new.refused ≡ Some pattern }
        ensures inner { self.new.inner ≡ self.old.inner }
        ensures failing { self.new.failing ≡ self.old.failing }
        ensures calls { self.new.calls ≡ self.old.calls }
    {
        count_up(&mut self.faults);
        self.refused = Some(pattern);
    }
}

impl<P: PatternHost> PatternHost for FailingHost<P> {
    ghost admits = { λ host. P.admits host.inner };

    ghost state = { refusing_told };

    /// A call that is refused on demand does not reach the inner host; every other call is the inner host's.
    /// The pattern is copied first, in case that it is refused: where the memory for that is wanting, no call
    /// reaches the inner host.
    fn build(&mut self, alloc: Global, text: &str, flags: Flags) -> Result<Pattern, PatternFault>
        requires { P.admits self.old.inner flags text.now }
        ensures built { IfOk result (IsBuiltOf text.now flags) }
        ensures none { IfErr result (λ fault. fault ≡ NoPattern → IsNoPattern text.now flags) }
        ensures admitted { StaysAdmitted (P.admits self.old.inner) (P.admits self.new.inner) }
        ensures cause { HasRefusalCause self.old.faults self.new.faults result }
        ensures refused { NotesRefused (record { flags = flags; text = text.now })
            self.old.refused self.new.refused result }

        ensures listed { refuses_next self.old ≡ true
            → (result ≢ Err Memory → result ≡ Err Refused) × (self.new.inner ≡ self.old.inner) }
        ensures passed { refuses_next self.old ≡ false
            → HasRefusalCause (P.state self.old.inner).faults (P.state self.new.inner).faults result }
        ensures calls { self.new.calls ≡ next_count self.old.calls }
        ensures faults { self.new.faults ≡ refusals_after self.old.faults result }
        ensures failing { self.new.failing ≡ self.old.failing }
    {
        let is_listed = next_call_fails(&self.failing, &mut self.calls);
        let copy = RefusedPattern::copied(alloc, text, flags)?;
        if is_listed {
            self.note(copy);
            return Err(PatternFault::Refused);
        }
        let built = self.inner.build(alloc, text, flags);
        if let Err(PatternFault::Refused) = built {
            self.note(copy);
        }
        built
    }
}
