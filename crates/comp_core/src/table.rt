//! Answers that are given beforehand.
ghost use Rattle.std.specs.Prelude.{◌≡◌, Some, IsTrue};
ghost use Rattle.comp_core.specs.Table.{has_pair, first_answered};

use crate::{Conform, Pair, ResultRow};
use graph_view::Reads;
use shx_term::Memory;

/// A pair and its results.
#[derive(Drop)]
pub struct Answered {
    pub pair: Pair,
    pub rows: Vec<ResultRow>,
}

/// Answers for some pairs, which were read from nothing: for tests of a component without the shapes that it
/// names. The first answer for a pair counts. A look-up goes over all of them.
#[derive(Drop)]
pub struct AnswerTable {
    pub answers: Vec<Answered>,
}

impl AnswerTable {
    // The answer for a pair.
    fn answered(&self, pair: &Pair) -> &Answered
        requires { IsTrue (has_pair self.now.answers.items pair.now) }
        ensures { first_answered self.now.answers.items pair.now ≡ Some result.now }
    {
        for answered in &self.answers {
            if answered.pair.shape == pair.shape && answered.pair.node == pair.node {
                return answered;
            }
        }
        unreachable!()
    }
}

impl Conform for AnswerTable {
    type Noted = Reads;

    ghost use Rattle.std.specs.Prelude.{◌≡◌, IsTrue, []};
    ghost use Rattle.comp_core.specs.declared.pair.Pair.{Pair};
    ghost use Rattle.comp_core.specs.Table.{has_pair, table_rows};

    ghost holds = { λ t p. IsTrue (has_pair t.answers.items p) };

    ghost rows_of = { λ t p. table_rows t.answers.items p };

    ghost tells = { λ t r. (p : Pair) → r p ≡ [] };

    fn conforms(&self, pair: &Pair, _reads: &mut Reads) -> Result<bool, Memory> {
        Ok(self.answered(pair).rows.is_empty())
    }

    fn results(&self, pair: &Pair, _reads: &mut Reads) -> Result<&[ResultRow], Memory> {
        Ok(&self.answered(pair).rows)
    }
}
