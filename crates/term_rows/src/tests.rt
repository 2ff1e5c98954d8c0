mod codes;
mod keys;
mod limits;
mod pools;
mod terms;

use row_tools::RowFault;
use shx_term::TermKeys;
use std::cmp::Ordering;
use std::test::Fail;

// Fails where what a test asks for does not hold.
fn holds(outcome: Result<bool, RowFault>) -> Result<(), Fail> {
    match outcome? {
        true => Ok(()),
        false => Err(Fail::new("it does not hold")),
    }
}

// The hash of the pools here.
fn key() -> TermKeys {
    TermKeys::of([7; 16])
}

// What rows say of what is so or not.
fn said(truth: bool) -> &'static str {
    if truth { "yes" } else { "no" }
}

// What rows call an order.
fn order_name(order: Ordering) -> &'static str {
    match order {
        Ordering::Less => "less",
        Ordering::Equal => "equal",
        Ordering::Greater => "greater",
    }
}
