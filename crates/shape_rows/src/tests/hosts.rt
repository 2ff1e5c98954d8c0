//! A host for patterns.
ghost use Rattle.std.specs.Prelude.{None};
ghost use Rattle.shx_outside.specs.Outside.{builds_all};

use shx_outside::{Flags, Pattern, PatternFault, PatternHost};
use std::alloc::Global;

/// A host that has no memory for any pattern: what is tested of plans needs none.
#[derive(Drop)]
pub(super) struct NoPatterns {}

impl PatternHost for NoPatterns {
    ghost admits = { builds_all };

    ghost state = { λ _. record { faults = 0; refused = None } };

    fn build(&mut self, _: Global, _: &str, _: Flags) -> Result<Pattern, PatternFault> {
        Err(PatternFault::Memory)
    }
}
