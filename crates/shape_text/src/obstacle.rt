//! What stands in the way of a plan, as it is told.
ghost use Rattle.std.specs.Prelude.{◌≡◌, ◌<◌, length};
ghost use Rattle.shape_text.specs.Verdict.{fault_answer};
ghost use Rattle.shape_text.specs.inner.Obstacles.{HasFirst, check_refusal, compile_refusal};

use crate::refusal::Refusal;
use crate::stop::Stop;
use report_write::Answer;
use shape_check::{CheckFault, ShapeFault};
use shape_compile::CompileFault;
use shx_term::Id;
use shx_term::fault_codes::{BAD_PATTERN, PATTERN_REFUSED, RECURSIVE, REFERENCES_TOO_DEEP};

/// What is told of shapes that break a rule.
pub fn check_refusal(fault: CheckFault) -> Refusal
    ensures { result ≡ check_refusal fault }
{
    match fault {
        CheckFault::Shape(fault) => Refusal::Text(fault_answer(&fault)),
        CheckFault::Memory => Refusal::Cut(Stop::Memory),
    }
}

/// What is told of shapes that make no plan; of a cycle its first shape.
pub fn compile_refusal(fault: &CompileFault) -> Refusal
    requires { HasFirst fault.now }
    ensures { result ≡ compile_refusal fault.now }
{
    match fault {
        CompileFault::Recursive { cycle } => of_shape(RECURSIVE, cycle[0]),
        CompileFault::ReferencesTooDeep { shape } => of_shape(REFERENCES_TOO_DEEP, *shape),
        CompileFault::BadPattern { shape } => of_shape(BAD_PATTERN, *shape),
        CompileFault::PatternRefused { shape } => of_shape(PATTERN_REFUSED, *shape),
        CompileFault::Memory => Refusal::Cut(Stop::Memory),
    }
}

fn of_shape(code: u32, shape: Id) -> Refusal
    ensures { result ≡ Refusal.Text (Answer.OfShape code shape) }
{
    Refusal::Text(Answer::OfShape { code, shape })
}

fn fault_answer(fault: &ShapeFault) -> Answer
    ensures { result ≡ fault_answer fault.now.code fault.now.shape fault.now.predicate fault.now.term }
{
    match (fault.predicate, fault.term) {
        (Some(predicate), Some(term)) => Answer::Rule {
            code: fault.code,
            shape: fault.shape,
            predicate,
            term,
        },
        _ => Answer::OfShape {
            code: fault.code,
            shape: fault.shape,
        },
    }
}
