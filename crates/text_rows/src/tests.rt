mod output;
mod outside;
mod patterns;
mod texts;
mod told;

use row_tools::RowFault;
use shx_outside::{Bytes, Memory, Name, NamedText};
use std::alloc::Global;
use std::test::Fail;

// Fails where what a test asks for does not hold.
fn holds(outcome: Result<bool, RowFault>) -> Result<(), Fail> {
    match outcome? {
        true => Ok(()),
        false => Err(Fail::new("it does not hold")),
    }
}

fn named(alloc: Global, name: &str, text: &str) -> Result<NamedText, Memory> {
    let name = Name::new(String::from_str(alloc, name)?);
    let bytes = Bytes::new(String::from_str(alloc, text)?.into_bytes());
    Ok(NamedText { name, bytes })
}
