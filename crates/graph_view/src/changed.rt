//! What a change leaves of an answer in term order: what is gone is left out, what is new is merged in, and
//! what was found is not sorted again.
ghost use Rattle.std.specs.Prelude.{◌≡◌, ◌++◌, List, IfOk};
ghost use Rattle.std.specs.declared.cmp.Ordering.{Ordering};
ghost use Rattle.std.specs.List.Sorted.{IsStrictlySortedBy};
ghost use Rattle.shx_term.specs.declared.term.Term.{Term};
ghost use Rattle.shx_term.specs.InOrder.{IsExactOrder, in_order};
ghost use Rattle.graph_view.specs.Patched.{without};
ghost use Rattle.graph_view.specs.inner.Merged.{PutsBefore};

use shx_term::{Id, Memory, Pool, Triple};
use std::alloc::Global;
use std::cmp::Ordering;

/// What answers consist of: numbers and triples, each with its order by terms.
pub trait Found: Copy + PartialEq + Drop {
    ghost order: { List Term → Self → Self → Ordering };

    ghost exact: { (terms : List Term) → IsExactOrder (order terms) };

    fn compare(pool: &Pool, a: &Self, b: &Self) -> Ordering
        ensures { result ≡ order pool.now.terms a.now b.now };

    /// In order, each once. It takes no memory.
    fn ascending(pool: &Pool, found: Vec<Self>) -> Vec<Self>
        ensures { result.items ≡ in_order (order pool.now.terms) found.items };
}

impl Found for Id {
    ghost use Rattle.shx_term.specs.IdOrder.{id_cmp};
    ghost use Rattle.shx_term.proofs.IdOrderLemmas.{id_order};

    ghost order = { id_cmp };

    ghost exact = { id_order };

    fn compare(pool: &Pool, a: &Id, b: &Id) -> Ordering {
        pool.cmp_ids(*a, *b)
    }

    fn ascending(pool: &Pool, found: Vec<Id>) -> Vec<Id>
        ensures { result.items ≡ in_order (id_cmp pool.now.terms) found.items }
    {
        pool.in_order(found)
    }
}

impl Found for Triple {
    ghost use Rattle.shx_term.specs.TripleOrder.{triple_cmp};
    ghost use Rattle.shx_term.proofs.TripleOrderLemmas.{triple_order};

    ghost order = { triple_cmp };

    ghost exact = { triple_order };

    fn compare(pool: &Pool, a: &Triple, b: &Triple) -> Ordering {
        pool.cmp_triples(a, b)
    }

    fn ascending(pool: &Pool, found: Vec<Triple>) -> Vec<Triple>
        ensures { result.items ≡ in_order (triple_cmp pool.now.terms) found.items }
    {
        pool.triples_in_order(found)
    }
}

/// What was found, which is in order, without what is gone and with what is new.
pub(crate) fn changed<T: Found>(
    alloc: Global,
    pool: &Pool,
    mut found: Vec<T>,
    gone: &[T],
    new: Vec<T>,
) -> Result<Vec<T>, Memory>
    requires sorted { IsStrictlySortedBy (T.order pool.now.terms) found.items }
    ensures { IfOk result (λ all. all.items
        ≡ in_order (T.order pool.now.terms) (without T.eq found.items gone.now ++ new.items)) }
{
    leave_out(&mut found, gone);
    merged(alloc, pool, found, new)
}

fn leave_out<T: Found>(found: &mut Vec<T>, gone: &[T])
    ensures { found.new.items ≡ without T.eq found.old.items gone.now }
{
    if !gone.is_empty() {
        found.retain(|x| !gone.contains(x));
    }
}

/// What was found, which is in order, and what is new, in whatever order, as one list in order. It costs a
/// sort of what is new, a binary search for each of it, and one copy of all; where nothing is new, nothing.
pub fn merged<T: Found>(
    alloc: Global,
    pool: &Pool,
    found: Vec<T>,
    new: Vec<T>,
) -> Result<Vec<T>, Memory>
    requires sorted { IsStrictlySortedBy (T.order pool.now.terms) found.items }
    ensures { IfOk result (λ all. all.items
        ≡ in_order (T.order pool.now.terms) (found.items ++ new.items)) }
{
    if new.as_slice().is_empty() {
        return Ok(found);
    }
    let ascending = T::ascending(pool, new);
    both(alloc, pool, &found, &ascending)
}

// Two lists in order as one.
fn both<T: Found>(alloc: Global, pool: &Pool, found: &[T], new: &[T]) -> Result<Vec<T>, Memory>
    requires found { IsStrictlySortedBy (T.order pool.now.terms) found.now }
    requires new { IsStrictlySortedBy (T.order pool.now.terms) new.now }
    ensures { IfOk result (λ all. all.items
        ≡ in_order (T.order pool.now.terms) (found.now ++ new.now)) }
{
    let mut all = Vec::with_capacity(alloc, found.len().saturating_add(new.len()))?;
    let mut rest = found;
    for x in new {
        rest = put_before(pool, &mut all, rest, *x)?;
    }
    all.extend_from_slice(rest)?;
    Ok(all)
}

// Moves what is left of a list in order up to an element, and the element behind it; gives what is left then.
fn put_before<'a, T: Found>(
    pool: &Pool,
    all: &mut Vec<T>,
    rest: &'a [T],
    x: T,
) -> Result<&'a [T], Memory>
    requires sorted { IsStrictlySortedBy (T.order pool.now.terms) rest.now }
    ensures { IfOk result (λ left. PutsBefore (T.order pool.now.terms) x rest.now left.now
        all.old.items all.new.items) }
{
    match rest.binary_search_by(|y| T::compare(pool, y, &x)) {
        Ok(_) => Ok(rest),
        Err(place) => {
            let (before, behind) = rest.split_at(place);
            all.extend_from_slice(before)?;
            all.push(x)?;
            Ok(behind)
        }
    }
}
