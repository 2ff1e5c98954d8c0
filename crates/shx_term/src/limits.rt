ghost use Rattle.std.specs.Prelude.{◌≡◌};
ghost use Rattle.shx_term.specs.Limits.{AreUsable, program_limits};

/// How much a run takes at most. A text or an edit that would pass a limit is refused.
#[derive(Clone, Copy, Debug, PartialEq, Eq)]
pub struct Limits {
    /// Triples that one text states, repeats counted, and triples of the data graph.
    pub triples: u64,
    /// Terms of the pool, the vocabulary among them.
    pub terms: u32,
    /// Bytes of one Turtle text.
    pub text: u64,
    /// Bytes of the script.
    pub script: u64,
    /// Bytes of one line of the script.
    pub line: u64,
    /// Open brackets in a statement of Turtle.
    pub turtle_depth: u32,
    /// How deep a path nests.
    pub path_depth: u32,
    /// Parts of a path when it is unfolded.
    pub path_parts: u32,
    /// How many levels of shapes refer to one another.
    pub reference_depth: u32,
    /// Shapes.
    pub shapes: u32,
    /// Edits of one group.
    pub group: u32,
    /// Changes that are kept to be undone.
    pub history: u32,
}

impl Limits {
    /// The limits of the program.
    pub fn program() -> Limits
        ensures exact { result ≡ program_limits }
        ensures usable { AreUsable result }
    {
        Limits {
            triples: 4_000_000,
            terms: 16_000_000,
            text: 268_435_456,
            script: 268_435_456,
            line: 65_536,
            turtle_depth: 128,
            path_depth: 64,
            path_parts: 4_096,
            reference_depth: 64,
            shapes: 100_000,
            group: 10_000,
            history: 100,
        }
    }
}
