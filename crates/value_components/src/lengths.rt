//! What sh:minLength and sh:maxLength share (SHACL, sections 4.4.1 and 4.4.2).
ghost use Rattle.std.specs.Prelude.{◌≡◌, ◌++◌, ◌<◌, length, OnOk};
ghost use Rattle.std.specs.Str.{chars};
ghost use Rattle.graph_view.specs.Graph.{HasTerms};
ghost use Rattle.graph_view.specs.Valid.{IsValidView};
ghost use Rattle.value_space.specs.Compared.{read_as};
ghost use Rattle.value_space.specs.ReadValues.{value_at};
ghost use Rattle.comp_core.specs.Results.{each_unless};
ghost use Rattle.comp_core.specs.TermTests.{are_so_at};
ghost use Rattle.value_components.specs.inner.Limits.{is_kept, is_kept_by};

use crate::condition::{Condition, check_terms};
use crate::texts::text_of;
use comp_core::{At, Kind, ResultRow};
use graph_view::{GraphView, term_of};
use shx_term::{Id, Memory, Term};
use std::alloc::Global;
use value_space::{ReadLiteral, Value, is_fewer_read, is_more_read};

/// Which numbers of code points a bound allows.
#[derive(Clone, Copy)]
pub(crate) enum Limit {
    AtLeast,
    AtMost,
}

// A bound that was read.
#[derive(Clone, Copy)]
struct LengthBound<'a> {
    limit: Limit,
    read: Option<ReadLiteral<'a>>,
}

fn length_of(text: &str) -> usize
    ensures { result ≡ length (chars text.now) }
{
    text.chars().count()
}

impl LengthBound<'_> {
    fn allows(&self, text: &str) -> bool
        ensures { result ≡ is_kept self.now.limit (read_as self.now.read) (length (chars text.now)) }
    {
        let length = length_of(text);
        match self.limit {
            Limit::AtLeast => !is_fewer_read(length, &self.read),
            Limit::AtMost => !is_more_read(length, &self.read),
        }
    }
}

impl Condition for LengthBound<'_> {
    ghost use Rattle.value_components.specs.Lengths.{has_length};

    ghost holds_of = { λ b t. has_length (is_kept b.limit (read_as b.read)) t };

    fn holds(&self, term: &Term) -> bool {
        match text_of(term) {
            Some(text) => self.allows(text),
            None => false,
        }
    }
}

/// Appends a result for each value node that is blank, or whose number of code points the bound does not
/// allow. The bound was read before, and no text is copied.
pub(crate) fn check_length<V: GraphView>(
    alloc: Global,
    view: &V,
    limit: Limit,
    bound: Id,
    read: Option<Value>,
    kind: Kind,
    at: At,
    values: &[Id],
    out: &mut Vec<ResultRow>,
) -> Result<(), Memory>
    requires valid { IsValidView (V.graph view.now) }
    requires bound { bound < length (V.graph view.now).terms }
    requires read { read ≡ value_at (V.graph view.now).terms bound }
    requires values { HasTerms (V.graph view.now) values.now }
    ensures { OnOk result (out.new.items ≡ out.old.items
        ++ each_unless (are_so_at (is_kept_by limit) (V.graph view.now) bound) kind at values.now) }
{
    let condition = LengthBound {
        limit,
        read: ReadLiteral::again(term_of(view, bound), read),
    };
    check_terms(alloc, view, &condition, kind, at, values, out)
}
