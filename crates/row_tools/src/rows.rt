use crate::RowFault;
use std::alloc::{AllocError, Global};
use std::test::Fail;

/// Fails with the first row of a table that is not met. A row is a line; empty ones are left out, and so are
/// headings, which begin with `== `. A row that cannot be tried is not met, and neither is a table without
/// rows.
pub fn all_met<F: Fn(Global, &str) -> Result<bool, RowFault>>(
    alloc: Global,
    table: &str,
    is_met: F,
) -> Result<(), Fail>
    requires { F.IsAlwaysCallable is_met }
{
    all_of(alloc, table, "\n", is_met)
}

/// Fails with the first block of a table that is not met. An empty line stands between two blocks.
pub fn all_blocks_met<F: Fn(Global, &str) -> Result<bool, RowFault>>(
    alloc: Global,
    table: &str,
    is_met: F,
) -> Result<(), Fail>
    requires { F.IsAlwaysCallable is_met }
{
    all_of(alloc, table, "\n\n", is_met)
}

fn all_of<F: Fn(Global, &str) -> Result<bool, RowFault>>(
    alloc: Global,
    table: &str,
    between: &str,
    is_met: F,
) -> Result<(), Fail>
    requires { F.IsAlwaysCallable is_met }
{
    let mut is_any_met = false;
    for row in table.split(between) {
        if !row.is_empty() && !row.starts_with("== ") {
            match is_met(alloc, row) {
                Ok(true) => is_any_met = true,
                Ok(false) | Err(RowFault::Unread) => return Err(Fail::new(row)),
                Err(RowFault::Memory) => return Err(Fail::from(AllocError)),
            }
        }
    }
    if is_any_met {
        Ok(())
    } else {
        Err(Fail::new("a table of no rows"))
    }
}
