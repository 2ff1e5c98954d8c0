//! A list of triples of terms, which a record can hold.
ghost use Rattle.std.specs.Prelude.{◌≡◌};

use shx_term::TermTriple;
use std::marker::Model;

/// Triples of terms, in order. Contracts see a list.
#[derive(Drop)]
pub struct TermTriples {
    triples: Vec<TermTriple>,
}

impl Model for TermTriples {
    ghost use Rattle.std.specs.Prelude.{List};
    ghost use Rattle.shx_term.specs.declared.triple.TermTriple.{TermTriple};

    ghost Value = { List TermTriple };

    ghost view = { λ a. a.triples.items };
}

impl TermTriples {
    /// Takes the triples; no memory.
    pub fn new(triples: Vec<TermTriple>) -> TermTriples
        ensures { result ≡ triples.items }
    {
        TermTriples { triples }
    }

    /// The triples, in order.
    pub fn as_slice(&self) -> &[TermTriple]
        ensures { result.now ≡ self.now }
    {
        &self.triples
    }
}
