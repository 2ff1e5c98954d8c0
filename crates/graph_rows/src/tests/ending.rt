//! How an edit of a graph ends.
use row_tools::RowFault;

#[derive(Clone, Copy, PartialEq, Eq)]
pub(super) enum Ending {
    New,
    Held,
    Gone,
    Absent,
    Done,
    Full,
}

/// The ending of a word.
pub(super) fn ending_of(word: &str) -> Result<Ending, RowFault> {
    match word {
        "new" => Ok(Ending::New),
        "held" => Ok(Ending::Held),
        "gone" => Ok(Ending::Gone),
        "absent" => Ok(Ending::Absent),
        "done" => Ok(Ending::Done),
        "full" => Ok(Ending::Full),
        _ => Err(RowFault::Unread),
    }
}

/// Whether an edit ends as is due.
pub(super) fn ends(found: Result<Ending, RowFault>, due: &str) -> Result<bool, RowFault> {
    Ok(found? == ending_of(due)?)
}
