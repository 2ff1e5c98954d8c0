//! sh:uniqueLang (SHACL, section 4.4.5).
ghost use Rattle.std.specs.Prelude.{◌≡◌, length, map, IfOk, OnOk};
ghost use Rattle.graph_view.specs.Graph.{HasTerms};
ghost use Rattle.graph_view.specs.Valid.{IsValidView};
ghost use Rattle.value_components.specs.Tags.{tag_at};
ghost use Rattle.value_components.specs.UniqueLang.{repeated_tags};
ghost use Rattle.value_components.specs.inner.Noted.{note_tag};
ghost use Rattle.value_components.specs.inner.Told.{told, kept};

use crate::tags::tag_of;
use comp_core::kinds::UNIQUE_LANG;
use comp_core::{At, Component, Conform, Pair, ResultRow, add_once_if};
use graph_view::{GraphView, term_of};
use indexmap::IndexSet;
use shx_term::{Id, Memory, Text};
use std::alloc::Global;

/// No two value nodes have the same language tag.
#[derive(Drop)]
pub struct UniqueLang {
    /// The literal `true`.
    pub value: Id,
}

impl UniqueLang {
    /// The component with its parameter. It takes no memory.
    pub fn new(value: Id) -> UniqueLang
        ensures { result.value ≡ value }
    {
        UniqueLang { value }
    }
}

// Notes a tag: it is seen, or seen again.
fn note_tag<'a>(
    seen: &mut IndexSet<&'a Text>,
    again: &mut IndexSet<&'a Text>,
    tag: Option<&'a Text>,
) -> Result<(), Memory>
    ensures { OnOk result (kept seen.new.keys again.new.keys
        ≡ note_tag (kept seen.old.keys again.old.keys) (told tag.entry)) }
{
    if let Some(tag) = tag {
        if !seen.insert(tag)? {
            again.insert(tag)?;
        }
    }
    Ok(())
}

// How many tags two or more nodes have.
fn repeated<V: GraphView>(alloc: Global, view: &V, values: &[Id]) -> Result<usize, Memory>
    requires valid { IsValidView (V.graph view.now) }
    requires values { HasTerms (V.graph view.now) values.now }
    ensures { IfOk result (λ n. n
        ≡ length (repeated_tags (map (tag_at (V.graph view.now)) values.now))) }
{
    let mut seen: IndexSet<&Text> = IndexSet::new(alloc);
    let mut again: IndexSet<&Text> = IndexSet::new(alloc);
    for v in values {
        note_tag(&mut seen, &mut again, tag_of(term_of(view, *v)))?;
    }
    Ok(again.len())
}

impl<'p> Component<'p> for UniqueLang {
    type Known = ();

    ghost use Rattle.std.specs.Prelude.{[]};
    ghost use Rattle.value_components.specs.UniqueLang.{unique_lang_hits};

    ghost knows = { λ known g. Unit };

    ghost is_read_of = { λ c terms. Unit };

    ghost numbers_of = { λ c. [] };

    ghost asks_of = { λ c vs. [] };

    ghost hits_of = { λ c g m at vs. unique_lang_hits g at vs };

    ghost reads_of = { λ c g r at vs. [] };

    fn asks(&self, _values: &[Id], _out: &mut Vec<Pair>) -> Result<(), Memory> {
        Ok(())
    }

    fn check<V: GraphView, C: Conform>(
        &'p self,
        alloc: Global,
        view: &V,
        _conform: &C,
        _known: &mut (),
        at: At,
        values: &[Id],
        _reads: &mut C::Noted,
        out: &mut Vec<ResultRow>,
    ) -> Result<(), Memory> {
        for _ in 0..repeated(alloc, view, values)? {
            add_once_if(alloc, true, UNIQUE_LANG, at, out)?;
        }
        Ok(())
    }

    fn laws() {}
}
