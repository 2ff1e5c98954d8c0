ghost use Rattle.std.specs.Prelude.{◌≡◌, IfOk, IfErr};
ghost use Rattle.regex.specs.Views.{builder_config, builder_source};
ghost use Rattle.shx_outside.specs.Counted.{HasRefusalCause, refusals_after};
ghost use Rattle.shx_outside.specs.Outside.{builds_all};
ghost use Rattle.shx_outside.specs.Patterns.{IsBuiltOf, IsNoPattern, options_of};
ghost use Rattle.shx_outside.specs.RegexHost.{refusals_told};
ghost use Rattle.shx_outside.specs.Told.{NotesRefused, StaysAdmitted};
ghost use Rattle.shx_outside.specs.declared.pattern_fault.PatternFault.TheVariants.{NoPattern};

use crate::counted::count_up;
use crate::refused_pattern::RefusedPattern;
use crate::{Flags, Pattern, PatternFault, PatternHost};
use regex::{Error, RegexBuilder};
use std::alloc::Global;
use std::marker::Model;

/// The patterns of `regex`. It counts each pattern that `regex` refuses though its grammar reads it, one that
/// would pass the limit on the size of what is built, and keeps the last of them.
#[derive(Debug, Drop)]
pub struct RegexHost {
    pub(crate) errors: u64,
    refused: Option<RefusedPattern>,
}

impl Model for RegexHost {
    ghost use Rattle.shx_outside.specs.RegexHost.{Refusals};

    ghost Value = { Refusals };

    ghost view = { λ a. record { errors = a.errors; refused = a.refused } };
}

impl RegexHost {
    pub fn new() -> RegexHost
        ensures errors { result.errors ≡ 0 }
        ensures refused { result.refused ≡ None }
    {
        RegexHost {
            errors: 0,
            refused: None,
        }
    }
}

impl PatternHost for RegexHost {
    ghost admits = { builds_all };

    ghost state = { refusals_told };

    /// Nothing is built of more than about 10 MiB, and nothing that nests deeper than 250: these are limits
    /// of `regex`. To keep a pattern that is refused takes memory, and where that is refused, `Memory` is the
    /// answer.
    fn build(&mut self, alloc: Global, text: &str, flags: Flags) -> Result<Pattern, PatternFault>
        ensures built { IfOk result (IsBuiltOf text.now flags) }
        ensures none { IfErr result (λ fault. fault ≡ NoPattern → IsNoPattern text.now flags) }
        ensures admitted { StaysAdmitted (builds_all self.old) (builds_all self.new) }
        ensures cause { HasRefusalCause self.old.errors self.new.errors result }
        ensures refused { NotesRefused (record { flags = flags; text = text.now })
            self.old.refused self.new.refused result }

        ensures count { self.new.errors ≡ refusals_after self.old.errors result }
    {
        match builder_of(text, flags).build(alloc) {
            Ok(regex) => Ok(Pattern::new(regex, flags)),
            Err(Error::Syntax(_)) => Err(PatternFault::NoPattern),
            Err(Error::OutOfMemory) => Err(PatternFault::Memory),
            Err(_) => {
                self.refused = Some(RefusedPattern::copied(alloc, text, flags)?);
                count_up(&mut self.errors);
                Err(PatternFault::Refused)
            }
        }
    }
}

// The builder of a text with these flags.
fn builder_of<'t>(text: &'t str, flags: Flags) -> RegexBuilder<'t>
    ensures source { builder_source result ≡ text.now }
    ensures options { builder_config result ≡ options_of flags }
{
    RegexBuilder::new(text)
        .case_insensitive(flags.i)
        .multi_line(flags.m)
        .dot_matches_new_line(flags.s)
        .ignore_whitespace(flags.x)
}
