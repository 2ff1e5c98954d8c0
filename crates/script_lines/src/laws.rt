ghost use Rattle.std.specs.Prelude.{◌≡◌, List, ℕ, Result};
ghost use Rattle.shx_term.specs.declared.limits.Limits.{Limits as limits_type};
ghost use Rattle.ttl_meaning.specs.declared.document.Document.{Document as document_type};
ghost use Rattle.script_lines.specs.declared.command.Command.{Command as command_type};
ghost use Rattle.script_lines.specs.declared.fault.LineFault.{LineFault as fault_type};
ghost use Rattle.script_lines.specs.Lines.{IsLineRead};
ghost use Rattle.script_lines.specs.SameNames.{HaveSameNames};

/// A law: a line has one reading.
pub fn a_line_has_one_reading()
    ensures { (limits : limits_type) (document : document_type) (line : List ℕ)
        (a b : Result command_type fault_type) → IsLineRead limits document line a
        → IsLineRead limits document line b → a ≡ b }
{}

/// A law: a line is read alike behind documents with the same names.
pub fn names_decide_a_line()
    ensures { (limits : limits_type) (a b : document_type) (line : List ℕ)
        (reading : Result command_type fault_type) → HaveSameNames a b → IsLineRead limits a line reading
        → IsLineRead limits b line reading }
{}
