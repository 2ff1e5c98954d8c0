//! Which of two terms is less than the other, and counts against terms. Wide literals are not compared.
ghost use Rattle.std.specs.Prelude.{◌≡◌, false};
ghost use Rattle.shx_term.specs.ValidTriples.{IsNotWide};
ghost use Rattle.shx_term.specs.WideLiterals.{is_wide};

use row_tools::{RowFault, term};
use shx_term::{Literal, Term};
use std::alloc::Global;
use value_space::{
    ReadLiteral, is_fewer, is_fewer_read, is_less, is_less_eq, is_more, is_more_read, less,
    less_eq, value_read, wide,
};

fn is_wide(term: &Term) -> bool
    ensures { result ≡ false → IsNotWide term.now }
{
    match term {
        Term::Lit(literal) => wide(literal),
        _ => false,
    }
}

// How two terms that were read compare, asked in both directions.
fn order_of_terms(a: &Option<ReadLiteral>, b: &Option<ReadLiteral>) -> &'static str {
    match (
        is_less(a, b),
        is_less_eq(a, b),
        is_less(b, a),
        is_less_eq(b, a),
    ) {
        (true, true, false, false) => "less",
        (false, true, false, true) => "equal",
        (false, false, true, true) => "greater",
        (false, false, false, false) => "apart",
        _ => "at odds",
    }
}

fn order_name(less: Option<bool>, less_eq: Option<bool>) -> &'static str {
    match (less, less_eq) {
        (None, None) => "apart",
        (Some(true), Some(true)) => "less",
        (Some(false), Some(true)) => "equal",
        (Some(false), Some(false)) => "greater",
        _ => "at odds",
    }
}

// Whether two literals compare so, at once and once they were read.
fn is_order(a: &Literal, b: &Literal, order: &str) -> bool
    requires a { is_wide a.now ≡ false }
    requires b { is_wide b.now ≡ false }
{
    let (first, second) = (ReadLiteral::of(a), ReadLiteral::of(b));
    order_name(less(a, b), less_eq(a, b)) == order
        && order_name(first.less(&second), first.less_eq(&second)) == order
}

// Whether two terms compare so, and where both are literals, these do.
fn compare_so(a: &Term, b: &Term, order: &str) -> bool {
    if is_wide(a) || is_wide(b) {
        return false;
    }
    if order_of_terms(&ReadLiteral::of_term(a), &ReadLiteral::of_term(b)) != order {
        return false;
    }
    match (a, b) {
        (Term::Lit(a), Term::Lit(b)) => is_order(a, b, order),
        _ => true,
    }
}

/// Whether the terms of two words compare so.
pub(super) fn are_in_order(
    alloc: Global,
    first: &str,
    order: &str,
    second: &str,
) -> Result<bool, RowFault> {
    let first = term(alloc, first)?;
    let second = term(alloc, second)?;
    Ok(compare_so(&first, &second, order))
}

fn count_name(fewer: bool, more: bool) -> &'static str {
    match (fewer, more) {
        (true, false) => "fewer",
        (false, true) => "more",
        (false, false) => "neither",
        (true, true) => "at odds",
    }
}

// Whether a count compares so with a term, and with the same term once it was read.
fn counts_so(count: usize, bound: &Term, answer: &str) -> bool {
    if is_wide(bound) {
        return answer == "wide";
    }
    let value = value_read(bound);
    let read = ReadLiteral::of_term(bound);
    count_name(is_fewer(count, bound, value), is_more(count, bound, value)) == answer
        && count_name(is_fewer_read(count, &read), is_more_read(count, &read)) == answer
}

/// Whether a count compares so with the term of a word.
pub(super) fn is_counted(
    alloc: Global,
    count: &str,
    answer: &str,
    word: &str,
) -> Result<bool, RowFault> {
    let Ok(count) = count.parse::<usize>() else {
        return Err(RowFault::Unread);
    };
    Ok(counts_so(count, &term(alloc, word)?, answer))
}
