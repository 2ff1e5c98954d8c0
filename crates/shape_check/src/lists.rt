//! The lists that are values of one parameter.
ghost use Rattle.std.specs.Prelude.{◌≡◌, not, find, flat_map, map};
ghost use Rattle.std.specs.Option.{is_none, option_map};
ghost use Rattle.shape_decl.specs.Declarations.{told_list};
ghost use Rattle.shape_decl.specs.Shapes.{members_or_none};
ghost use Rattle.shape_check.specs.Kinds.{is_of_kind};

use crate::ValueKind;
use crate::kinds::is_of_kind;
use shape_decl::ListValue;
use shx_term::{Id, Pool};

/// The first head that heads no list.
pub(crate) fn first_broken(lists: &[ListValue]) -> Option<Id>
    ensures { result ≡ option_map (λ list. list.head) (find (λ list. is_none list.members) lists.now) }
{
    let list = lists.iter().find(|list| list.members.is_none())?;
    Some(list.head)
}

/// The first member that is of another kind.
pub(crate) fn first_unfit_member(lists: &[ListValue], pool: &Pool, kind: ValueKind) -> Option<Id>
    ensures { result ≡ find (λ n. not (is_of_kind pool.now.terms kind n))
        (flat_map (λ list. members_or_none (told_list list).members) lists.now) }
{
    for list in lists {
        if let Some(id) = first_unfit(members(list), pool, kind) {
            return Some(id);
        }
    }
    None
}

fn first_unfit(ids: &[Id], pool: &Pool, kind: ValueKind) -> Option<Id>
    ensures { result ≡ find (λ n. not (is_of_kind pool.now.terms kind n)) ids.now }
{
    ids.iter().copied().find(|id| !is_of_kind(pool, kind, *id))
}

fn members(list: &ListValue) -> &[Id]
    ensures { result.now ≡ members_or_none (told_list list.now).members }
{
    match &list.members {
        Some(members) => members.as_slice(),
        None => &[],
    }
}
