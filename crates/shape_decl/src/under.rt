//! What a shape has under one predicate.
ghost use Rattle.std.specs.Prelude.{◌≡◌, drop, map, take};
ghost use Rattle.shape_decl.specs.Declarations.{lists_under, takes_lists, told_decl, told_list};
ghost use Rattle.shape_decl.specs.Declarations.{values_under};

use crate::tables::list_predicates;
use crate::{ListValue, ShapeDecl};
use shx_term::Id;

impl ShapeDecl {
    /// The values of a predicate, in term order; none where the shape does not have it. It goes over the
    /// predicates of the shape.
    pub fn values_of(&self, predicate: Id) -> &[Id]
        ensures { result.now ≡ values_under (told_decl self.now) predicate }
    {
        for row in &self.values {
            if row.predicate == predicate {
                return &row.values;
            }
        }
        &[]
    }

    /// The lists that are values of a parameter, in the order of the values; none where the parameter expects
    /// no lists. It goes over the predicates of the shape.
    pub fn lists_of(&self, predicate: Id) -> &[ListValue]
        ensures { map told_list result.now ≡ lists_under (told_decl self.now) predicate }
    {
        if !takes_lists(predicate) {
            return &[];
        }
        let mut lists = self.lists.as_slice();
        for row in &self.values {
            let (of_row, behind) = parted(lists, row.values.len());
            if row.predicate == predicate {
                return of_row;
            }
            if takes_lists(row.predicate) {
                lists = behind;
            }
        }
        &[]
    }
}

fn takes_lists(predicate: Id) -> bool
    ensures { result ≡ takes_lists predicate }
{
    list_predicates().contains(&predicate)
}

// So many lists, as far as there are, and those behind them.
fn parted(lists: &[ListValue], count: usize) -> (&[ListValue], &[ListValue])
    ensures front { result.0.now ≡ take count lists.now }
    ensures behind { result.1.now ≡ drop count lists.now }
{
    if count < lists.len() {
        lists.split_at(count)
    } else {
        (lists, &[])
    }
}
