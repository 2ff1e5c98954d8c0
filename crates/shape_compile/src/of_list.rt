//! Constraints with the members of a list.
ghost use Rattle.std.specs.Prelude.{◌≡◌, ℕ, List, ◌++◌, map, OnOk};
ghost use Rattle.shape_decl.specs.Declarations.{told_decl};
ghost use Rattle.shape_eval.specs.Content.{Members};
ghost use Rattle.shape_compile.specs.Constraints.{said_by, says};
ghost use Rattle.shape_compile.specs.inner.Shapes.{list_kind, list_predicate, stated_of_list};

use crate::lists::shared_members;
use id_list::IdList;
use shape_decl::ShapeDecl;
use shape_eval::Constraint;
use shx_term::vocabulary::{SH_IN, SH_LANGUAGE_IN};
use shx_term::{Id, Memory};
use std::alloc::Global;
use value_components::{In, LanguageIn};

/// A parameter whose value is a list of terms (SHACL, sections 4.4.4 and 4.8.3).
#[derive(Clone, Copy, Debug, PartialEq, Eq)]
pub(crate) enum OfList {
    LanguageIn,
    In,
}

impl OfList {
    fn predicate(self) -> Id
        ensures { result ≡ list_predicate self }
    {
        match self {
            OfList::LanguageIn => SH_LANGUAGE_IN,
            OfList::In => SH_IN,
        }
    }

    fn constraint(self, head: Id, members: IdList) -> Constraint
        ensures { (nodes : List ℕ) → said_by nodes result
            ≡ says (list_kind self) (Members members) head }
    {
        match self {
            OfList::LanguageIn => Constraint::LanguageIn(LanguageIn::new(head, members)),
            OfList::In => Constraint::In(In::new(head, members)),
        }
    }
}

/// Appends a constraint for each list that is a value of the parameter.
pub(crate) fn add_of_list(
    alloc: Global,
    decl: &ShapeDecl,
    parameter: OfList,
    out: &mut Vec<Constraint>,
) -> Result<(), Memory>
    ensures { OnOk result ((nodes : List ℕ) → map (said_by nodes) out.new.items
        ≡ map (said_by nodes) out.old.items ++ stated_of_list (told_decl decl.now) parameter) }
{
    for list in decl.lists_of(parameter.predicate()) {
        let members = shared_members(alloc, list)?;
        out.push(parameter.constraint(list.head, members))?;
    }
    Ok(())
}
