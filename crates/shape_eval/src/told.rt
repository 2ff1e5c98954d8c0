//! What is told of pairs while one is evaluated: what is remembered, and that a shape which is passed over
//! has no results.
ghost use Rattle.std.specs.Prelude.{◌≡◌, ◌<◌, length};
ghost use Rattle.std.specs.Bool.{OnFalse, OnTrue};
ghost use Rattle.std.specs.Option.{option_map};
ghost use Rattle.comp_core.specs.Memo.{lent};
ghost use Rattle.shape_eval.specs.inner.Told.{IsHeld, IsToFind, told_of};

use crate::PlanShape;
use comp_core::{Conform, Memo, Pair, Recalled, ResultRow};
use graph_view::Notes;
use shx_term::Memory;

/// What is remembered of pairs, beside the shapes of a plan.
#[derive(Drop)]
pub(crate) struct Told<'a, M: Memo> {
    pub(crate) shapes: &'a [PlanShape],
    pub(crate) memo: &'a M,
}

/// Whether nothing is to be evaluated for a pair: its shape is passed over, or its answer is remembered.
pub(crate) fn is_held<M: Memo>(shapes: &[PlanShape], memo: &M, pair: &Pair) -> bool
    requires { pair.now.shape < length shapes.now }
    ensures held { OnTrue result (IsHeld shapes.now (M.recalled memo.now) pair.now) }
    ensures to_find { OnFalse result (IsToFind shapes.now (M.recalled memo.now) pair.now) }
{
    shapes[pair.shape as usize].deactivated || memo.find(pair).is_some()
}

impl<'a, M: Memo> Told<'a, M> {
    // What is remembered of a pair of a shape that is evaluated.
    fn answer(&self, pair: &Pair) -> Option<Recalled<'_, M::Noted>>
        ensures { option_map lent result
            ≡ told_of self.now.shapes.now (M.recalled self.now.memo.now) pair.now }
    {
        let shape = self.shapes.get(pair.shape as usize)?;
        if shape.deactivated {
            return None;
        }
        self.memo.find(pair)
    }
}

impl<'a, M: Memo> Conform for Told<'a, M> {
    type Noted = M::Noted;

    ghost use Rattle.shape_eval.specs.inner.Told.{IsHeld, Tells, rows_told};

    ghost holds = { λ told p. IsHeld told.shapes.now (M.recalled told.memo.now) p };

    ghost rows_of = { λ told p. rows_told told.shapes.now (M.recalled told.memo.now) p };

    ghost tells = { λ told r. Tells told.shapes.now r };

    fn conforms(&self, pair: &Pair, reads: &mut M::Noted) -> Result<bool, Memory> {
        match self.answer(pair) {
            Some(answer) => {
                reads.add(pair.answer_key())?;
                Ok(answer.rows.is_empty())
            }
            None => Ok(true),
        }
    }

    fn results(&self, pair: &Pair, reads: &mut M::Noted) -> Result<&[ResultRow], Memory> {
        match self.answer(pair) {
            Some(answer) => {
                reads.add(pair.answer_key())?;
                Ok(answer.rows)
            }
            None => Ok(&[]),
        }
    }
}
