//! sh:pattern with sh:flags (SHACL, section 4.4.3).
ghost use Rattle.std.specs.Prelude.{◌≡◌};
ghost use Rattle.std.proofs.Props.{props};
ghost use Rattle.shx_outside.specs.Patterns.{IsBuiltOf};

use shx_outside::Flags;
use shx_term::{Id, Text};

/// The pattern has a match in the text of each value node, which is no blank node.
#[derive(Drop)]
pub struct Pattern {
    /// The literal with the pattern.
    pub value: Id,
    /// The pattern.
    pub text: Text,
    /// Its flags.
    pub flags: Flags,
    /// The pattern as it was built.
    pub built: shx_outside::Pattern,
    ghost built_of: { IsBuiltOf text flags built } by { Prim.hlevel props },
}

impl Pattern {
    /// The component with its parameters: the pattern was built of this text, with these flags. It takes no
    /// memory.
    pub fn new(value: Id, text: Text, flags: Flags, built: shx_outside::Pattern) -> Pattern
        requires { IsBuiltOf text flags built }
        ensures value { result.value ≡ value }
        ensures text { result.text ≡ text }
        ensures flags { result.flags ≡ flags }
        ensures built { result.built ≡ built }
    {
        Pattern {
            value,
            text,
            flags,
            built,
        }
    }
}
