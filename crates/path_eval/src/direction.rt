ghost use Rattle.std.specs.Prelude.{◌≡◌};
ghost use Rattle.path_eval.specs.Relation.{opposite};

/// Which way a path is followed: from a node to what it is related to, or from there back.
#[derive(Clone, Copy, Debug, PartialEq, Eq)]
pub enum Direction {
    Forward,
    Backward,
}

impl Direction {
    /// The other direction.
    pub fn opposite(self) -> Direction
        ensures { result ≡ opposite self }
    {
        match self {
            Direction::Forward => Direction::Backward,
            Direction::Backward => Direction::Forward,
        }
    }
}
