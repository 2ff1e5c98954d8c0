//! The members of lists.
ghost use Rattle.std.specs.Prelude.{◌≡◌, IfOk};
ghost use Rattle.shape_decl.specs.Declarations.{told_list};
ghost use Rattle.shape_decl.specs.Shapes.{members_or_none};

use id_list::IdList;
use shape_decl::ListValue;
use shx_term::{Id, Memory};
use std::alloc::Global;

/// The members of a list; none where it is no list.
pub(crate) fn members_of(list: &ListValue) -> &[Id]
    ensures { result.now ≡ members_or_none (told_list list.now).members }
{
    match &list.members {
        Some(members) => members.as_slice(),
        None => &[],
    }
}

/// The same, shared with the list.
pub(crate) fn shared_members(alloc: Global, list: &ListValue) -> Result<IdList, Memory>
    ensures { IfOk result (λ members. members ≡ members_or_none (told_list list.now).members) }
{
    match &list.members {
        Some(members) => members.copy(),
        None => IdList::new(alloc, Vec::new(alloc)),
    }
}
