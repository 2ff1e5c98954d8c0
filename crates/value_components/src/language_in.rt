//! sh:languageIn (SHACL, section 4.4.4).
ghost use Rattle.std.specs.Prelude.{◌≡◌, ◌<◌, length};
ghost use Rattle.std.specs.List.{list_any};
ghost use Rattle.graph_view.specs.Graph.{HasTerms};
ghost use Rattle.graph_view.specs.Valid.{IsValidView};
ghost use Rattle.comp_core.specs.TermTests.{is_so_at};
ghost use Rattle.value_components.specs.LanguageIn.{is_spoken, is_range_of};

use crate::tags::{matches_range, tag_of};
use comp_core::kinds::LANGUAGE_IN;
use comp_core::{At, Component, Conform, Pair, ResultRow, add_unless};
use graph_view::{GraphView, term_of};
use id_list::IdList;
use shx_term::{Id, Memory, Term, Text};
use std::alloc::Global;

/// Each value node has a language tag that a range of the list matches.
pub struct LanguageIn {
    /// The head of the list.
    pub value: Id,
    /// Its members, the ranges.
    pub members: IdList,
}

impl Drop for LanguageIn {
    fn drop(self) {
        let LanguageIn {
            value: _value,
            members: _members,
        } = self;
    }
}

impl LanguageIn {
    /// The component with its list and the members of that. It takes no memory.
    pub fn new(value: Id, members: IdList) -> LanguageIn
        ensures value { result.value ≡ value }
        ensures members { result.members ≡ members }
    {
        LanguageIn { value, members }
    }
}

// Whether the term is a range that matches the tag.
fn is_range_of(range: &Term, tag: &Text) -> bool
    ensures { result ≡ is_range_of tag.now range.now }
{
    match range {
        Term::Lit(literal) => {
            matches_range(tag.as_str().as_bytes(), literal.lexical.as_str().as_bytes())
        }
        _ => false,
    }
}

// Whether one of the ranges matches the tag.
fn is_in_ranges<V: GraphView>(view: &V, ranges: &[Id], tag: &Text) -> bool
    requires valid { IsValidView (V.graph view.now) }
    requires ranges { HasTerms (V.graph view.now) ranges.now }
    ensures { result ≡ list_any (is_so_at (is_range_of tag.now) (V.graph view.now)) ranges.now }
{
    for range in ranges {
        if is_range_of(term_of(view, *range), tag) {
            return true;
        }
    }
    false
}

// Whether the node has a tag that one of the ranges matches.
fn is_spoken<V: GraphView>(view: &V, ranges: &[Id], node: Id) -> bool
    requires valid { IsValidView (V.graph view.now) }
    requires ranges { HasTerms (V.graph view.now) ranges.now }
    requires node { node < length (V.graph view.now).terms }
    ensures { result ≡ is_spoken (V.graph view.now) ranges.now node }
{
    match tag_of(term_of(view, node)) {
        Some(tag) => is_in_ranges(view, ranges, tag),
        None => false,
    }
}

impl<'p> Component<'p> for LanguageIn {
    type Known = ();

    ghost use Rattle.std.specs.Prelude.{[]};
    ghost use Rattle.value_components.specs.LanguageIn.{language_in_hits};

    ghost knows = { λ known g. Unit };

    ghost is_read_of = { λ c terms. Unit };

    ghost numbers_of = { λ c. c.members };

    ghost asks_of = { λ c vs. [] };

    ghost hits_of = { λ c g m at vs. language_in_hits c g at vs };

    ghost reads_of = { λ c g r at vs. [] };

    fn asks(&self, _values: &[Id], _out: &mut Vec<Pair>) -> Result<(), Memory> {
        Ok(())
    }

    fn check<V: GraphView, C: Conform>(
        &'p self,
        alloc: Global,
        view: &V,
        _conform: &C,
        _known: &mut (),
        at: At,
        values: &[Id],
        _reads: &mut C::Noted,
        out: &mut Vec<ResultRow>,
    ) -> Result<(), Memory> {
        let ranges = self.members.as_slice();
        for v in values {
            let is_fine = is_spoken(view, ranges, *v);
            add_unless(alloc, is_fine, LANGUAGE_IN, at, *v, out)?;
        }
        Ok(())
    }

    fn laws() {}
}
