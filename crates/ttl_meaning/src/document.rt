ghost use Rattle.std.specs.Prelude.{◌<◌, ◌^◌, map};
ghost use Rattle.std.proofs.Props.{props};
ghost use Rattle.iri_resolve.specs.Resolution.{IsAbsolute};
ghost use Rattle.ttl_meaning.specs.inner.Ascending.{AreAscending};

use shx_term::{IriText, Label, Text, Triple};

/// A prefix, and the namespace that it stands for.
#[derive(Debug, Drop)]
pub struct Prefix {
    pub name: Text,
    pub iri: IriText,
}

/// What a text states.
pub struct Document {
    /// In the order in which their objects begin, repeats kept.
    pub triples: Vec<Triple>,

    /// Those that are bound at the end of the text, each name once, sorted by bytes.
    pub prefixes: Vec<Prefix>,
    pub ghost names_ascend: { AreAscending (map (λ p. p.name) prefixes.items) } by { Prim.hlevel props },

    /// The base at the end of the text. It is absolute.
    pub base: IriText,
    pub ghost absolute: { IsAbsolute base } by { Prim.hlevel props },

    /// The labels of blank nodes, each once, sorted by bytes.
    pub labels: Vec<Label>,
    pub ghost labels_ascend: { AreAscending labels.items } by { Prim.hlevel props },

    /// How many blank nodes have no label. They are numbered from 1.
    pub anonymous: u32,
    pub ghost few: { anonymous < 2 ^ 32 },
}

// A derived drop is no call: each place where one ends would split into one path for each of its parts.
impl Drop for Document {
    fn drop(self) {
        let Document {
            triples: _triples,
            prefixes: _prefixes,
            base: _base,
            labels: _labels,
            anonymous: _anonymous,
        } = self;
    }
}
