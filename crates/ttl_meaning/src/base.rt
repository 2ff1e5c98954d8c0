ghost use Rattle.std.specs.Prelude.{◌≡◌};
ghost use Rattle.iri_resolve.specs.Resolution.{IsAbsolute};

use shx_term::IriText;
use std::marker::Model;

/// The absolute IRI against which references are resolved.
#[derive(Drop)]
pub struct Base {
    iri: IriText,
}

impl Model for Base {
    ghost use Rattle.std.specs.Prelude.{List, ℕ};
    ghost use Rattle.iri_resolve.specs.Resolution.{IsAbsolute};

    ghost Value = { List ℕ };

    ghost view = { λ a. a.iri };

    ghost invariant = { λ a. IsAbsolute a.iri };
}

impl Base {
    pub(crate) fn new(iri: IriText) -> Base
        requires { IsAbsolute iri }
        ensures { result ≡ iri }
    {
        Base { iri }
    }

    /// The IRI.
    pub fn iri(&self) -> &IriText
        ensures same { result.now ≡ self.now }
        ensures absolute { IsAbsolute result.now }
    {
        &self.iri
    }

    /// The IRI by itself.
    pub fn into_iri(self) -> IriText
        ensures same { result ≡ self }
        ensures absolute { IsAbsolute result }
    {
        self.iri
    }
}
