ghost use Rattle.shx_term.specs.Limits.{program_limits};
ghost use Rattle.command_words.specs.Words.{command_words};
ghost use Rattle.shacl_run.specs.Admits.{AdmitsFiles};
ghost use Rattle.shacl_run.specs.Loads.{LoadsAreAdmitted};
ghost use Rattle.shacl_run.specs.Outside.{outside};
ghost use Rattle.shacl_run.specs.RunClauses.{IsRun, PatternsAreAdmittedBy};

use shacl_run::{Status, run};
use shx_outside::{Inputs, PatternHost, Sink};
use shx_term::{Limits, Steps, TermKeys, Text};
use std::alloc::Global;
use std::sync::ledger::Ledger;

/// The program over any inputs, sink and pattern host: a run with the program's limits, of which it promises
/// what `run` does.
pub fn run_program<H: Inputs, O: Sink, P: PatternHost, L: Ledger, M: Ledger>(
    alloc: Global,
    words: &[Text],
    host: &mut H,
    out: &mut O,
    patterns: &mut P,
    keys: TermKeys,
    nested: &mut Steps<M>,
    steps: &mut Steps<L>,
) -> Status
    requires files { AdmitsFiles (H.admits host.old) (command_words words.now) }
    requires patterns { PatternsAreAdmittedBy program_limits (command_words words.now) (H.state host.old).text
        (P.admits patterns.old) }
    requires loads { LoadsAreAdmitted program_limits (command_words words.now) (H.state host.old).text
        (H.admits host.old) (P.admits patterns.old) }
    ensures { IsRun program_limits words.now
        (outside (H.state host.old) (O.state out.old) (P.state patterns.old) nested.old steps.old)
        (outside (H.state host.new) (O.state out.new) (P.state patterns.new) nested.new steps.new) result }
{
    let limits = Limits::program();
    run(
        alloc, words, host, out, patterns, &limits, keys, nested, steps,
    )
}
