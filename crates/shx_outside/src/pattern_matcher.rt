ghost use Rattle.std.specs.Prelude.{◌≡◌, IfOk, IsTrue};
ghost use Rattle.regex.specs.Strings.{matcher_pattern};
ghost use Rattle.shx_outside.specs.Patterns.{is_matched};
ghost use Rattle.shx_outside.specs.inner.Found.{FindsAs};

use crate::{Memory, Pattern};
use regex::Matcher;
use std::alloc::Global;
use std::marker::Model;

/// What looks for a pattern in texts. It keeps what it learns of the pattern from one text to the next, so
/// that no search needs more memory than it has, and none fails.
#[derive(Drop)]
pub struct PatternMatcher<'p> {
    pattern: &'p Pattern,
    matcher: Matcher<'p>,
    ghost finds: { FindsAs (matcher_pattern matcher) pattern.now },
}

impl<'p> Model for PatternMatcher<'p> {
    ghost use Rattle.shx_outside.specs.Patterns.{BuiltPattern};

    ghost Value = { BuiltPattern };

    ghost view = { λ a. a.pattern.now };
}

impl<'p> PatternMatcher<'p> {
    pub(crate) fn new(alloc: Global, pattern: &'p Pattern) -> Result<PatternMatcher<'p>, Memory>
        ensures { IfOk result (λ matcher. matcher ≡ pattern.now) }
    {
        let matcher = pattern.regex.matcher(alloc)?;
        Ok(PatternMatcher { pattern, matcher })
    }

    /// Whether it looks for this pattern. It takes no memory, and a comparison of the texts that the patterns
    /// were built of.
    pub fn is_of(&self, pattern: &Pattern) -> bool
        ensures { IsTrue result → self.now ≡ pattern.now }
    {
        self.pattern.flags() == pattern.flags() && self.pattern.text() == pattern.text()
    }

    /// Whether the pattern has a match in a text. It takes time in proportion to the text.
    pub fn is_match(&mut self, text: &str) -> bool
        ensures is { result ≡ is_matched self.old.text self.old.flags text.now }
        ensures same { self.new ≡ self.old }
    {
        self.matcher.is_match(text)
    }
}
