ghost use Rattle.std.specs.Prelude.{◌≡◌, string_bytes, IfOk};

use crate::{Memory, Text};
use std::alloc::Global;
use std::marker::Model;

/// The label of a blank node, as it is written behind `_:`.
#[derive(Debug, PartialEq, Eq, PartialOrd, Ord, Hash, Drop)]
pub struct Label {
    text: Text,
}

impl Model for Label {
    ghost use Rattle.std.specs.Prelude.{List, ℕ};

    ghost Value = { List ℕ };

    ghost view = { λ a. a.text };

    ghost inverse = { λ d. record { text = d } };
}

impl Label {
    /// The text as it is. It takes no memory.
    pub fn new(text: String) -> Label
        ensures { result ≡ string_bytes text }
    {
        Label {
            text: Text::new(text),
        }
    }

    /// The text as a `&str`. It takes no memory.
    pub fn as_str(&self) -> &str
        ensures { result.now ≡ self.now }
    {
        self.text.as_str()
    }

    /// An equal label of its own.
    pub fn copy(&self, alloc: Global) -> Result<Label, Memory>
        ensures { IfOk result (λ copy. copy ≡ self.now) }
    {
        Ok(Label {
            text: self.text.copy(alloc)?,
        })
    }
}
