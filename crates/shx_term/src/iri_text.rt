ghost use Rattle.std.specs.Prelude.{◌≡◌, string_bytes, IfOk};

use crate::common_datatype::CommonDatatype;
use crate::{Memory, Text};
use std::alloc::Global;
use std::marker::Model;

/// An IRI, as its text. Whether the text is absolute, or allowed at all, is the matter of those who make it.
/// That of a common datatype may be kept without memory of its own, and is equal all the same.
#[derive(Debug, Drop)]
pub struct IriText {
    held: Held,
}

// The IRI of a common datatype may stand in either form.
#[derive(Debug)]
enum Held {
    Common(CommonDatatype),
    Own(Text),
}

impl Drop for Held {
    fn drop(self) {
        match self {
            Held::Common(_datatype) => {}
            Held::Own(_text) => {}
        }
    }
}

impl Model for IriText {
    ghost use Rattle.std.specs.Prelude.{List, ℕ};
    ghost use Rattle.shx_term.specs.inner.IriTexts.{held_text};

    ghost Value = { List ℕ };

    ghost view = { λ a. held_text a.held };
}

impl IriText {
    /// The text as it is. It takes no memory.
    pub fn new(text: String) -> IriText
        ensures { result ≡ string_bytes text }
    {
        IriText {
            held: Held::Own(Text::new(text)),
        }
    }

    /// The IRI of this text. It takes no memory where that is a common datatype's.
    pub fn from_str(alloc: Global, iri: &str) -> Result<IriText, Memory>
        ensures { IfOk result (λ made. made ≡ iri.now) }
    {
        let held = match CommonDatatype::of(iri) {
            Some(datatype) => Held::Common(datatype),
            None => Held::Own(Text::new(String::from_str(alloc, iri)?)),
        };
        Ok(IriText { held })
    }

    /// The same IRI, which gives its memory back where it is a common datatype's.
    pub fn interned(self) -> IriText
        ensures { result ≡ self }
    {
        match CommonDatatype::of(self.as_str()) {
            Some(datatype) => IriText {
                held: Held::Common(datatype),
            },
            None => self,
        }
    }

    /// The text as a `&str`. It takes no memory.
    pub fn as_str(&self) -> &str
        ensures { result.now ≡ self.now }
    {
        match &self.held {
            Held::Common(datatype) => datatype.as_str(),
            Held::Own(text) => text.as_str(),
        }
    }

    /// An equal IRI of its own. It takes no memory where it is a common datatype's.
    pub fn copy(&self, alloc: Global) -> Result<IriText, Memory>
        ensures { IfOk result (λ copy. copy ≡ self.now) }
    {
        let held = match &self.held {
            Held::Common(datatype) => Held::Common(*datatype),
            Held::Own(text) => Held::Own(text.copy(alloc)?),
        };
        Ok(IriText { held })
    }
}

impl PartialEq for IriText {
    ghost use Rattle.std.specs.Prelude.{nat_eq};
    ghost use Rattle.std.specs.Cmp;
    ghost use Rattle.std.specs.Cmp.Lexicographic.{pointwise, nat_list_eq_equiv};

    ghost eq = { pointwise nat_eq };

    ghost laws = { Cmp.partial_equiv_from_equiv nat_list_eq_equiv };

    fn eq(&self, other: &Self) -> bool {
        self.as_str() == other.as_str()
    }
}

impl Eq for IriText {
    ghost use Rattle.std.specs.Cmp.Lexicographic.{nat_list_eq_equiv};

    ghost laws = { nat_list_eq_equiv };
}
