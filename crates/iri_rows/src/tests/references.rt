mod rows;

use iri_resolve::{IriFault, is_absolute, resolve};
use row_tools::{RowFault, all_met, cut, iri_text};
use std::alloc::Global;
use std::test::Fail;

// Whether a reference over a base resolves to what is due, or is refused where that is due.
fn resolves_to(alloc: Global, base: &str, row: &str) -> Result<bool, RowFault> {
    let (reference, due) = cut(row, "→")?;
    if !is_absolute(base) {
        return Err(RowFault::Unread);
    }
    match resolve(alloc, &iri_text(alloc, base)?, reference) {
        Ok(resolved) => Ok(resolved.as_str() == due),
        Err(IriFault::NotAllowed) => Ok(due == "refused"),
        Err(IriFault::Memory) => Err(RowFault::Memory),
    }
}

fn over_the_standard_base(alloc: Global, row: &str) -> Result<bool, RowFault> {
    resolves_to(alloc, "http://a/b/c/d;p?q", row)
}

fn over_a_scheme(alloc: Global, row: &str) -> Result<bool, RowFault> {
    resolves_to(alloc, "a:s", row)
}

fn over_its_base(alloc: Global, row: &str) -> Result<bool, RowFault> {
    let (base, row) = cut(row, "→")?;
    resolves_to(alloc, base, row)
}

#[test]
fn worked_examples(rt: HostRuntime) -> Result<(), Fail> {
    all_met(rt.alloc(), rows::WORKED, over_the_standard_base)
}

#[test]
fn examples_of_the_standard(rt: HostRuntime) -> Result<(), Fail> {
    all_met(rt.alloc(), rows::STANDARD, over_the_standard_base)
}

#[test]
fn other_bases(rt: HostRuntime) -> Result<(), Fail> {
    all_met(rt.alloc(), rows::OTHER_BASES, over_its_base)
}

#[test]
fn bases_without_authority(rt: HostRuntime) -> Result<(), Fail> {
    all_met(rt.alloc(), rows::OVER_A_SCHEME, over_a_scheme)?;
    all_met(rt.alloc(), rows::WITHOUT_AUTHORITY, over_its_base)
}

#[test]
fn characters_that_are_not_allowed(rt: HostRuntime) -> Result<(), Fail> {
    all_met(rt.alloc(), rows::REFUSED, over_the_standard_base)?;
    assert!(rt; over_the_standard_base(rt.alloc(), "é\n→refused")?);
    Ok(())
}

fn is_absolute_as_said(_: Global, row: &str) -> Result<bool, RowFault> {
    let (text, answer) = cut(row, "→")?;
    Ok(answer == if is_absolute(text) { "yes" } else { "no" })
}

#[test]
fn absolute_texts(rt: HostRuntime) -> Result<(), Fail> {
    all_met(rt.alloc(), rows::ABSOLUTE, is_absolute_as_said)
}

#[test]
fn faults_are_told(rt: HostRuntime) -> Result<(), Fail> {
    let text = format!(in rt.alloc(); "{}", IriFault::NotAllowed)?;
    assert_eq!(rt;
        text.as_str(),
        "the reference has a character that an IRI may not have"
    );
    Ok(())
}
