ghost use Rattle.std.specs.Prelude.{◌≡◌, IfOk};
ghost use Rattle.shx_outside.specs.Patterns.{IsBuiltOf, IsPattern, is_matched, options_of};
ghost use Rattle.regex.specs.Strings.{regex_source, regex_config, IsReadFromSource};

use crate::{Flags, Memory, PatternMatcher};
use regex::Regex;
use std::alloc::Global;
use std::marker::Model;

/// A pattern that was built, with its flags.
#[derive(Drop)]
pub struct Pattern {
    pub(crate) regex: Regex,
    flags: Flags,
}

impl Model for Pattern {
    ghost use Rattle.std.specs.Prelude.{◌≡◌};
    ghost use Rattle.regex.specs.Strings.{regex_source, regex_config, IsReadFromSource};
    ghost use Rattle.shx_outside.specs.Patterns.{BuiltPattern, options_of};

    ghost Value = { BuiltPattern };

    ghost view = { λ a. record { text = regex_source a.regex; flags = a.flags } };

    ghost invariant = { λ a. (regex_config a.regex ≡ options_of a.flags) × IsReadFromSource a.regex };
}

impl Pattern {
    pub(crate) fn new(regex: Regex, flags: Flags) -> Pattern
        requires options { regex_config regex ≡ options_of flags }
        requires read { IsReadFromSource regex }
        ensures { IsBuiltOf (regex_source regex) flags result }
    {
        Pattern { regex, flags }
    }

    /// The text that the pattern was built of. It takes no memory.
    pub fn text(&self) -> &str
        ensures { result.now ≡ self.now.text }
    {
        self.regex.as_str()
    }

    /// The flags that it was built with.
    pub fn flags(&self) -> Flags
        ensures { result ≡ self.now.flags }
    {
        self.flags
    }

    /// That the text is one that the grammar of `regex` reads.
    pub fn is_read(&self)
        ensures { IsPattern self.now.text self.now.flags }
    {
        let _ = &self.regex;
    }

    /// What looks for this pattern in one text after another.
    pub fn matcher(&self, alloc: Global) -> Result<PatternMatcher<'_>, Memory>
        ensures { IfOk result (λ matcher. matcher ≡ self.now) }
    {
        PatternMatcher::new(alloc, self)
    }

    /// Whether the pattern has a match in a text. For many texts a `matcher` costs less, which is made once.
    pub fn is_match(&self, alloc: Global, text: &str) -> Result<bool, Memory>
        ensures { IfOk result (λ is. is ≡ is_matched self.now.text self.now.flags text.now) }
    {
        let mut matcher = self.matcher(alloc)?;
        Ok(matcher.is_match(text))
    }
}
