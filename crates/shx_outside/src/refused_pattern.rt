ghost use Rattle.std.specs.Prelude.{◌≡◌, IfOk};
ghost use Rattle.shx_outside.specs.Outside.{FlaggedText};

use crate::{Flags, Memory};
use std::alloc::Global;
use std::marker::Model;

/// A text that was refused as a pattern, with its flags.
#[derive(Debug, Drop)]
pub(crate) struct RefusedPattern {
    flags: Flags,
    text: String,
}

impl Model for RefusedPattern {
    ghost use Rattle.std.specs.String.{string_bytes};
    ghost use Rattle.shx_outside.specs.Outside.{FlaggedText};

    ghost Value = { FlaggedText };

    ghost view = { λ a. record { flags = a.flags; text = string_bytes a.text } };
}

impl RefusedPattern {
    pub(crate) fn copied(alloc: Global, text: &str, flags: Flags) -> Result<RefusedPattern, Memory>
        ensures { IfOk result (λ copy. copy ≡ record { flags = flags; text = text.now }) }
    {
        let text = String::from_str(alloc, text)?;
        Ok(RefusedPattern { flags, text })
    }
}
