ghost use Rattle.std.specs.Prelude.{◌≡◌};
ghost use Rattle.shx_outside.specs.Opens.{no_opens, with_open};

use crate::Role;
use crate::counted::count_up;

/// How often each role was opened.
#[derive(Clone, Copy, Debug)]
pub(crate) struct OpenCounts {
    shapes: u64,
    data: u64,
    script: u64,
}

impl OpenCounts {
    pub(crate) fn new() -> OpenCounts
        ensures { result ≡ no_opens }
    {
        OpenCounts {
            shapes: 0,
            data: 0,
            script: 0,
        }
    }

    /// Counts that a role was opened.
    pub(crate) fn count(&mut self, role: Role)
        ensures { self.new ≡ with_open self.old role }
    {
        match role {
            Role::Shapes => count_up(&mut self.shapes),
            Role::Data => count_up(&mut self.data),
            Role::Script => count_up(&mut self.script),
        }
    }
}
