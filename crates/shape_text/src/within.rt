//! A text within its limit.
ghost use Rattle.std.specs.Prelude.{◌≡◌, ◌⊎◌, ◌+◌, ◌<◌, ◌≤◌, true, IfOk, IfErr, OnOk};
ghost use Rattle.report_write.specs.declared.answer.Answer.{Answer as answer_type};
ghost use Rattle.report_write.specs.declared.answer.Answer.TheVariants.{TooLong};
ghost use Rattle.shx_outside.specs.Counted.{Rose, next_count};
ghost use Rattle.shx_outside.specs.Told.{StaysAdmitted, SameTexts, OthersStay};
ghost use Rattle.text_input.specs.TextRead.{ReadsWhole, IsTooLong, TakesWithin};
ghost use Rattle.shape_text.specs.declared.refusal.Refusal.TheVariants.{Text};
ghost use Rattle.shape_text.specs.Refusal.{RefusalCause};

use crate::refusal::Refusal;
use crate::stop::Stop;
use report_write::Answer;
use shx_outside::{Inputs, Role};
use std::alloc::Global;
use text_input::{ReadFault, read_text};

/// A text, or that it is longer than it may be.
pub fn read_within<I: Inputs>(
    alloc: Global,
    host: &mut I,
    role: Role,
    name: &str,
    most: u64,
) -> Result<Vec<u8>, Refusal>
    requires { I.admits host.old role name.now }
    ensures read { IfOk result (λ bytes.
        ReadsWhole ((I.state host.old).text name.now) ((I.state host.new).rest role) most bytes.items) }
    ensures too_long { IfErr result (λ refusal. (answer : answer_type) → refusal ≡ Text answer
        → (answer ≡ TooLong role) × IsTooLong ((I.state host.old).text name.now) most) }
    ensures within { (I.state host.old).opens role < (I.state host.new).opens role
        → TakesWithin ((I.state host.new).whole role) ((I.state host.new).rest role) most }
    ensures within_open { (I.state host.new).opened role ≡ true
        → TakesWithin ((I.state host.new).whole role) ((I.state host.new).rest role) most }
    ensures whole { (I.state host.new).opened role ≡ true
        → (I.state host.new).whole role ≡ (I.state host.old).text name.now }
    ensures stays_open { OnOk result ((I.state host.new).opened role ≡ true) }
    ensures stays_open_long { IfErr result (λ refusal. (answer : answer_type) → refusal ≡ Text answer
        → (I.state host.new).opened role ≡ true) }
    ensures opens { ((I.state host.new).opens role ≡ (I.state host.old).opens role)
        ⊎ ((I.state host.new).opens role ≡ next_count ((I.state host.old).opens role)) }
    ensures once { (I.state host.new).opens role ≤ (I.state host.old).opens role + 1 }
    ensures opened { OnOk result (Rose ((I.state host.old).opens role) ((I.state host.new).opens role)) }
    ensures cause { RefusalCause (I.state host.old).faults (I.state host.new).faults result }
    ensures others { OthersStay role (I.state host.old) (I.state host.new) }
    ensures admitted { StaysAdmitted (I.admits host.old) (I.admits host.new) }
    ensures texts { SameTexts (I.state host.old) (I.state host.new) }
{
    match read_text(alloc, host, role, name, most) {
        Ok(bytes) => Ok(bytes),
        Err(ReadFault::TooLong) => Err(Refusal::Text(Answer::TooLong { role })),
        Err(ReadFault::Input) => Err(Refusal::Cut(Stop::Input)),
        Err(ReadFault::Memory) => Err(Refusal::Cut(Stop::Memory)),
    }
}
