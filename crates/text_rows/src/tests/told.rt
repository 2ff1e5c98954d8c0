//! How faults and hosts are told.

use row_tools::{RowFault, all_met, cut};
use shx_outside::{Failed, PatternFault, RegexHost};
use std::alloc::Global;
use std::test::Fail;
use text_input::ReadFault;
use text_output::WriteFault;

// What is told, and its text.
const TOLD: &str = "\
a failure | the outside failed
a put that fails | the output failed
want of memory for a text | out of memory
want of memory for a pattern | memory was refused
a new host, which has refused nothing | RegexHost { errors: 0, refused: None }";

fn told(alloc: Global, name: &str) -> Result<String, RowFault> {
    match name {
        "a failure" => Ok(format!(in alloc; "{Failed}")?),
        "a put that fails" => Ok(format!(in alloc; "{WriteFault}")?),
        "want of memory for a text" => Ok(format!(in alloc; "{}", ReadFault::Memory)?),
        "want of memory for a pattern" => Ok(format!(in alloc; "{}", PatternFault::Memory)?),
        "a new host, which has refused nothing" => {
            Ok(format!(in alloc; "{:?}", RegexHost::new())?)
        }
        _ => Err(RowFault::Unread),
    }
}

fn is_told(alloc: Global, row: &str) -> Result<bool, RowFault> {
    let (name, text) = cut(row, " | ")?;
    Ok(told(alloc, name)?.as_str() == text)
}

#[test]
fn faults_and_hosts_have_texts(rt: HostRuntime) -> Result<(), Fail> {
    all_met(rt.alloc(), TOLD, is_told)
}
