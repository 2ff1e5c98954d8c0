ghost use Rattle.std.specs.Prelude.{ℕ, List, [], ◌++◌};

/// What takes a text in pieces, one behind the other. Where it cannot take one it remembers that, and takes
/// no more.
pub trait Pieces {
    /// From the first state to the second, this text was added, as far as the type says.
    ghost added: { Self → Self → List ℕ → Type 0 };

    /// Takes one piece more, also an empty one.
    fn add(&mut self, piece: &[u8])
        ensures { added self.old self.new piece.now };

    /// No text was added where nothing happened.
    ghost added_nothing: { (w : Self) → added w w [] };

    /// What was added in turn was added as one text.
    ghost added_in_turn: { (a b c : Self) (x y : List ℕ) → added a b x → added b c y → added a c (x ++ y) };
}
