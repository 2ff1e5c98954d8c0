//! That a line is read once.
ghost use Rattle.script_run.specs.LineReadings.{LinesAreReadOnce};

use script_lines::{a_line_has_one_reading, names_decide_a_line};

/// A law: behind a data text a line of the script has one reading.
pub fn lines_are_read_once()
    ensures { LinesAreReadOnce }
{
    a_line_has_one_reading();
    names_decide_a_line();
}
