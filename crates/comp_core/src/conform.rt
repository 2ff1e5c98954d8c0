ghost use Rattle.std.specs.Prelude.{◌≡◌, List, IfOk, OnOk};
ghost use Rattle.graph_view.specs.declared.key.Key.{Key};
ghost use Rattle.comp_core.specs.declared.pair.Pair.{Pair};
ghost use Rattle.comp_core.specs.declared.row.ResultRow.{ResultRow};
ghost use Rattle.comp_core.specs.Rows.{is_empty};

use crate::{Pair, ResultRow};
use graph_view::Notes;
use shx_term::Memory;

/// Who tells what was found of nodes at other shapes. What it tells was found before it is asked.
pub trait Conform {
    /// What takes the notes of who asks.
    type Noted: Notes;

    /// Which pairs are held.
    ghost holds: { Self → Pair → Type 0 };

    /// The results of a pair.
    ghost rows_of: { Self → Pair → List ResultRow };

    /// By pair, what is noted where its results are told: what they were read from, or what stands for that.
    ghost tells: { Self → (Pair → List Key) → Type 0 };

    /// Whether the pair has no results: the node conforms to the shape (SHACL, section 3.5).
    fn conforms(&self, pair: &Pair, reads: &mut Self::Noted) -> Result<bool, Memory>
        requires { holds self.now pair.now }
        ensures answer { IfOk result (λ none. none ≡ is_empty (rows_of self.now pair.now)) }
        ensures reads { (r : Pair → List Key) → tells self.now r
            → OnOk result (Self.Noted.notes reads.old reads.new (r pair.now)) };

    /// The results of the pair, lent: whoever needs a part of them copies that part alone.
    fn results(&self, pair: &Pair, reads: &mut Self::Noted) -> Result<&[ResultRow], Memory>
        requires { holds self.now pair.now }
        ensures rows { IfOk result (λ rows. rows.now ≡ rows_of self.now pair.now) }
        ensures reads { (r : Pair → List Key) → tells self.now r
            → OnOk result (Self.Noted.notes reads.old reads.new (r pair.now)) };
}
