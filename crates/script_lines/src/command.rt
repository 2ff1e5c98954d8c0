ghost use Rattle.std.specs.Prelude.{◌≡◌};
ghost use Rattle.script_lines.specs.Commands.{edit_in};

use shx_term::{Edit, Term, Text};

/// What a line of a script asks for.
#[derive(Debug)]
pub enum Command {
    /// The graph is edited; within a group the edit waits.
    Edit(Edit),
    /// The report is written again.
    Report,
    /// Triples, pairs and results are counted.
    Count,
    /// A group of edits is opened.
    Begin,
    /// The edits of the group are made at once.
    Commit,
    /// The group is given up.
    Abandon,
    /// The last change that is made is taken back.
    Undo,
    /// The change that was taken back last is made again.
    Redo,
    /// The triples on which the results of a shape at a node rest.
    Slice { shape: Term, node: Term },
    /// Other shapes: those of the text of this name.
    Shapes(Text),
    /// Nothing: the line is blank.
    Nothing,
}

impl Command {
    /// The edit that is asked for, where it is one.
    pub fn into_edit(self) -> Option<Edit>
        ensures { result ≡ edit_in self }
    {
        match self {
            Command::Edit(edit) => Some(edit),
            Command::Report | Command::Count | Command::Nothing => None,
            Command::Begin | Command::Commit | Command::Abandon => None,
            Command::Undo | Command::Redo => None,
            Command::Slice { .. } | Command::Shapes(..) => None,
        }
    }
}

// A derived drop is no call: each place where a command ends would split into one path for each command.
impl Drop for Command {
    fn drop(self) {
        match self {
            Command::Edit(_edit) => {}
            Command::Report | Command::Count | Command::Nothing => {}
            Command::Begin | Command::Commit | Command::Abandon => {}
            Command::Undo | Command::Redo => {}
            Command::Slice {
                shape: _shape,
                node: _node,
            } => {}
            Command::Shapes(_name) => {}
        }
    }
}
