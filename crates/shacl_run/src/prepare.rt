//! Before anything is written: the two texts are read, and a validation is opened.
ghost use Rattle.std.specs.Prelude.{◌≡◌, ◌<◌, IfOk, OnOk};
ghost use Rattle.iri_resolve.specs.Resolution.{IsAbsolute};
ghost use Rattle.shx_outside.specs.declared.role.Role.TheVariants.{Shapes, Data};
ghost use Rattle.shx_outside.specs.Told.{StaysAdmitted, SameTexts};
ghost use Rattle.shx_term.specs.Limits.{AreUsable};
ghost use Rattle.shacl_run.specs.inner.Prepared.{AreReadToEnd, HostStays, IsPrepared, PreparesWithin};
ghost use Rattle.shacl_run.specs.inner.Prepared.{Stores};
ghost use Rattle.shacl_run.specs.RunClauses.{IsOpenedBy};
ghost use Rattle.shx_term.specs.Vocabulary.{vocabulary};
ghost use Rattle.shape_text.specs.ShapesReadings.{PatternsAreAdmitted};
ghost use Rattle.shape_text.specs.Unopened.{UnopenedCause};
ghost use Rattle.script_run.specs.Stored.{Stands};

use crate::open_validation::open_validation;
use command_words::Asked;
use edit_engine::plans_target_shapes_once;
use script_run::Validation;
use shape_text::{Unopened, judge, read_within};
use shx_outside::{Inputs, PatternHost, Role};
use shx_term::{IriText, Limits, Pool};
use std::alloc::Global;

/// Reads the two texts and opens a validation over them, or answers why not. The data text is opened only
/// where the shapes have a plan. The pool holds no more than the vocabulary.
pub fn prepare<I: Inputs, P: PatternHost>(
    alloc: Global,
    asked: &Asked<'_>,
    base: &IriText,
    host: &mut I,
    patterns: &mut P,
    limits: &Limits,
    pool: Pool,
) -> Result<Validation, Unopened>
    requires limits { AreUsable limits.now }
    requires absolute { IsAbsolute base.now }
    requires shapes_admitted { I.admits host.old Shapes asked.now.shapes_file.now }
    requires data_admitted { I.admits host.old Data asked.now.data_file.now }
    requires patterns_admitted { PatternsAreAdmitted limits.now base.now
        ((I.state host.old).text asked.now.shapes_file.now) (P.admits patterns.old) }
    requires fresh { pool.terms ≡ vocabulary }
    requires limit { pool.limit ≡ limits.now.terms }
    ensures prepared { IsPrepared limits.now asked.now.format base.now
        ((I.state host.old).text asked.now.shapes_file.now) ((I.state host.old).text asked.now.data_file.now)
        (P.state patterns.old) (P.state patterns.new) (IsOpenedBy (I.state host.old) (I.state host.new) Data)
        result }
    ensures stored { IfOk result (Stores limits.now asked.now.format) }
    ensures stands { IfOk result Stands }
    ensures patterns { HostStays (P.state patterns.old).faults (P.state patterns.new).faults result }
    ensures ends { OnOk result (AreReadToEnd (I.state host.old) (I.state host.new)) }
    ensures within { PreparesWithin limits.now.text (I.state host.old) (I.state host.new) }
    ensures cause { UnopenedCause (I.state host.old).faults (I.state host.new).faults result }
    ensures admitted { StaysAdmitted (I.admits host.old) (I.admits host.new) }
    ensures builds { StaysAdmitted (P.admits patterns.old) (P.admits patterns.new) }
    ensures texts { SameTexts (I.state host.old) (I.state host.new) }
{
    // So the plan of the shapes may be asked of the data.
    plans_target_shapes_once();
    let shapes_text = match read_within(alloc, host, Role::Shapes, asked.shapes_file, limits.text) {
        Ok(text) => text,
        Err(refusal) => return Err(Unopened::of(refusal, pool)),
    };
    let accepted = judge(alloc, pool, shapes_text, base, limits, patterns)?;
    match read_within(alloc, host, Role::Data, asked.data_file, limits.text) {
        Ok(text) => open_validation(alloc, accepted, text, base, asked.format, limits),
        Err(refusal) => Err(Unopened::of(refusal, accepted.pool)),
    }
}
