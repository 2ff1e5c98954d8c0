//! The steps of a row, made in turn, and the question behind them.
ghost use Rattle.std.specs.Prelude.{◌≡◌, OnOk};
ghost use Rattle.std.specs.List.{IsDistinct, list_any};
ghost use Rattle.std.specs.Map.{keys_of};
ghost use Rattle.read_records.specs.Reader.{same_reader};

use super::cells::{Change, Verb, are_readers, are_said, pairs, reader, reads, triple, verb_of};
use graph_view::Reads;
use read_records::{Reader, Records};
use row_tools::{RowFault, cut};
use std::alloc::Global;

/// Whether the question behind the steps has the row's answer.
pub(super) fn is_answered(alloc: Global, row: &str) -> Result<bool, RowFault> {
    let (steps, answer) = cut(row, " →")?;
    let (before, question) = steps.rsplit_once("; ").unwrap_or(("", steps));
    let mut records = Records::new(alloc);
    for step in before.split("; ") {
        if !step.is_empty() {
            make(alloc, &mut records, step)?;
        }
    }
    answers(alloc, &records, question, answer.trim_start())
}

fn make(alloc: Global, records: &mut Records, step: &str) -> Result<(), RowFault> {
    let (verb, of) = verb_of(step)?;
    match verb {
        Verb::Stage => stage(alloc, records, of),
        Verb::Load => load(alloc, records, of),
        Verb::Remove => Ok(records.stage_removal(reader(of)?)?),
        Verb::Commit => {
            records.commit();
            Ok(())
        }
        Verb::Drop => {
            records.drop_staged();
            Ok(())
        }
        _ => Err(RowFault::Unread),
    }
}

fn load(alloc: Global, records: &mut Records, all: &str) -> Result<(), RowFault> {
    *records = loaded(alloc, all)?;
    Ok(())
}

// Records of several readers, which are told apart by commas.
fn loaded(alloc: Global, all: &str) -> Result<Records, RowFault> {
    let mut entries = Vec::new(alloc);
    for of in all.split(", ") {
        add_entry(alloc, &mut entries, of)?;
    }
    Ok(Records::of_all(alloc, entries)?)
}

fn add_entry(alloc: Global, all: &mut Vec<(Reader, Reads)>, of: &str) -> Result<(), RowFault>
    requires { IsDistinct same_reader (keys_of all.old.items) }
    ensures { OnOk result (IsDistinct same_reader (keys_of all.new.items)) }
{
    let (of, keys) = of.split_once(' ').unwrap_or((of, ""));
    let reader = reader(of)?;
    if is_among(all, reader) {
        return Err(RowFault::Unread);
    }
    all.push((reader, reads(alloc, keys)?))?;
    Ok(())
}

fn is_among(all: &[(Reader, Reads)], reader: Reader) -> bool
    ensures { result ≡ list_any (λ entry. same_reader reader entry.0) all.now }
{
    all.iter().any(|entry| reader == entry.0)
}

fn stage(alloc: Global, records: &mut Records, of: &str) -> Result<(), RowFault> {
    let (of, keys) = of.split_once(' ').unwrap_or((of, ""));
    Ok(records.stage(reader(of)?, reads(alloc, keys)?)?)
}

fn answers(
    alloc: Global,
    records: &Records,
    question: &str,
    answer: &str,
) -> Result<bool, RowFault> {
    let (verb, by) = verb_of(question)?;
    match verb {
        Verb::Touched => are_readers(&touched(alloc, records, by)?, answer),
        Verb::Changed => are_readers(&changed(alloc, records, by)?, answer),
        Verb::Reads => match records.reads_of(&reader(by)?) {
            Some(found) => are_said(found, answer),
            None => Ok(answer == "nothing"),
        },
        _ => Err(RowFault::Unread),
    }
}

fn touched(alloc: Global, records: &Records, by: &str) -> Result<Vec<Reader>, RowFault> {
    Ok(records.touched_by(alloc, &triple(by)?)?)
}

// The pairs whose answers the change reaches stand behind a comma.
fn changed(alloc: Global, records: &Records, by: &str) -> Result<Vec<Reader>, RowFault> {
    let (triples, answers) = by.split_once(", ").unwrap_or((by, ""));
    let change = Change::of(alloc, triples)?;
    let answers = pairs(alloc, answers)?;
    Ok(records.touched_by_change(alloc, &change.added, &change.removed, &answers)?)
}
