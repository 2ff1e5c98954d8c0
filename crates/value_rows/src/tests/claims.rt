use super::literals::is_value;
use super::rows::CLAIMS;
use super::terms::{are_in_order, is_counted};
use row_tools::{RowFault, all_met, in_three};
use std::alloc::Global;
use std::test::Fail;

fn holds(alloc: Global, row: &str) -> Result<bool, RowFault> {
    let (first, said, second) = in_three(row, "|")?;
    match said {
        "is" => is_value(alloc, first, second),
        "fewer" | "more" | "neither" | "wide" => is_counted(alloc, first, said, second),
        order => are_in_order(alloc, first, order, second),
    }
}

#[test]
fn claims_hold(rt: HostRuntime) -> Result<(), Fail> {
    all_met(rt.alloc(), CLAIMS, holds)
}
