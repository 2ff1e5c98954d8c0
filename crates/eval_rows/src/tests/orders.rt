//! Orders of shapes by what they refer to.
use super::due::Due;
use row_tools::{RowFault, cut, number};
use shape_order::{Numbering, OrderFault, are_shapes, order};
use shx_term::Memory;
use std::alloc::{AllocError, Global};

// The numbers of a cell, between blanks.
fn numbers(alloc: Global, cell: &str) -> Result<Vec<u32>, Memory> {
    let mut found = Vec::new(alloc);
    for word in cell.split(' ') {
        if let Ok(number) = word.parse::<u32>() {
            found.push(number)?;
        }
    }
    Ok(found)
}

// What each shape refers to, with a comma between two shapes, and `-` for nothing.
fn refs_of(alloc: Global, cell: &str) -> Result<Vec<Vec<u32>>, Memory> {
    let mut refs = Vec::new(alloc);
    for part in cell.split_terminator(", ") {
        refs.push(numbers(alloc, part)?)?;
    }
    Ok(refs)
}

// Takes a number, with a blank before it.
fn take_number(alloc: Global, number: u32, due: &mut Due) -> Result<(), Memory> {
    due.take(format!(in alloc; " {number}")?.as_str());
    Ok(())
}

// Takes a word, and numbers behind it.
fn take_numbers(alloc: Global, word: &str, list: &[u32], due: &mut Due) -> Result<(), Memory> {
    due.take(word);
    for number in list {
        take_number(alloc, *number, due)?;
    }
    Ok(())
}

fn take_found(
    alloc: Global,
    found: &Result<Numbering, OrderFault>,
    due: &mut Due,
) -> Result<(), Memory> {
    match found {
        Ok(found) => {
            take_numbers(alloc, " order", &found.order, due)?;
            take_numbers(alloc, " places", &found.places, due)?;
            take_numbers(alloc, " levels", &found.levels, due)
        }
        Err(OrderFault::Recursive { cycle }) => take_numbers(alloc, " cycle", cycle, due),
        Err(OrderFault::TooDeep { shape }) => take_numbers(alloc, " deep", &[*shape], due),
        Err(OrderFault::Memory) => Err(AllocError),
    }
}

// Whether this is found, within the limit.
fn is_found(alloc: Global, refs: &[Vec<u32>], limit: &str, mut due: Due) -> Result<bool, RowFault> {
    if are_shapes(refs) {
        take_found(alloc, &order(alloc, refs, number(limit)?), &mut due)?;
    } else {
        due.take(" no shapes");
    }
    Ok(due.is_found())
}

/// Whether this is found of shapes: `LIMIT REFERENCES`.
pub(super) fn is_order(alloc: Global, of: &str, due: Due) -> Result<bool, RowFault> {
    let (limit, refs) = of.split_once(' ').unwrap_or((of, ""));
    is_found(alloc, &refs_of(alloc, refs)?, limit, due)
}

// 2,000 shapes of which each refers to the next, and the last as said.
fn chain(alloc: Global, last: &str) -> Result<Vec<Vec<u32>>, Memory> {
    let mut refs = Vec::new(alloc);
    for next in 1..2_000u32 {
        let mut shapes = Vec::new(alloc);
        shapes.push(next)?;
        refs.push(shapes)?;
    }
    refs.push(numbers(alloc, last)?)?;
    Ok(refs)
}

/// Whether this is found of a chain: `LIMIT LAST`.
pub(super) fn is_order_of_chain(alloc: Global, of: &str, due: Due) -> Result<bool, RowFault> {
    let (limit, last) = cut(of, " ")?;
    is_found(alloc, &chain(alloc, last)?, limit, due)
}
