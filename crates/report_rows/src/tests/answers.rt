use super::rows::ANSWERS;
use report_write::{Answer, write_answer};
use row_tools::{RowFault, all_met, cut, number, vocabulary_pool};
use shx_outside::{MemorySink, Role};
use shx_term::Pool;
use shx_term::fault_codes::{BAD_LIST, LINE_SYNTAX, RECURSIVE, SCRIPT_TOO_LONG};
use shx_term::vocabulary::{RDF_NIL, SH_IN, SH_NODE_SHAPE, VOCABULARY_LEN};
use std::alloc::Global;
use std::test::Fail;
use text_output::Format;

fn refusal(code: u32) -> Answer {
    Answer::RefusedLine {
        line: u64::MAX,
        code,
    }
}

fn too_long(role: Role) -> Answer {
    Answer::TooLong { role }
}

// A fault of a shape, or of the data.
fn fault(code: u32) -> Answer {
    match code {
        20..=33 => Answer::OfShape { code, shape: SH_IN },
        _ => Answer::TextFault {
            role: Role::Data,
            code,
            at: 120,
        },
    }
}

// What is said before a report, or in its place.
fn answer_of_text(name: &str) -> Result<Answer, RowFault> {
    match name {
        "last fault" => Ok(Answer::TextFault {
            role: Role::Script,
            code: u32::MAX,
            at: u64::MAX,
        }),
        "long shapes" => Ok(too_long(Role::Shapes)),
        "long data" => Ok(too_long(Role::Data)),
        "long script" => Ok(too_long(Role::Script)),
        "notice" => Ok(Answer::Notice { count: 1 }),
        "last notice" => Ok(Answer::Notice { count: u64::MAX }),
        "rule" => Ok(Answer::Rule {
            code: BAD_LIST,
            shape: SH_NODE_SHAPE,
            predicate: SH_IN,
            term: RDF_NIL,
        }),
        "no term" => Ok(Answer::OfShape {
            code: RECURSIVE,
            shape: u32::MAX,
        }),
        "usage" => Ok(Answer::Usage),
        code => Ok(fault(number(code)?)),
    }
}

// What is said to a line of a script.
fn answer_of(name: &str) -> Result<Answer, RowFault> {
    match name {
        "changed" => Ok(Answer::Changed {
            evaluated: u64::MAX,
        }),
        "unchanged" => Ok(Answer::Unchanged),
        "taken" => Ok(Answer::ShapesTaken { evaluated: 3 }),
        "begun" => Ok(Answer::Begun),
        "queued" => Ok(Answer::Queued),
        "abandoned" => Ok(Answer::Abandoned),
        "dropped" => Ok(Answer::GroupDropped),
        "count" => Ok(Answer::Count {
            triples: u64::MAX,
            pairs: 0,
            results: 7,
        }),
        "refused" => Ok(refusal(SCRIPT_TOO_LONG)),
        "refused by no code" => Ok(refusal(11)),
        "refused at" => Ok(Answer::RefusedAt {
            line: 3,
            code: LINE_SYNTAX,
            at: 17,
        }),
        _ => answer_of_text(name),
    }
}

// Whether an answer is put as this line behind a front, in pieces of three bytes.
fn is_put(
    alloc: Global,
    answer: &Answer,
    pool: &Pool,
    format: Format,
    (front, line): (&str, &str),
) -> bool {
    let mut sink = MemorySink::new(alloc, 3, Vec::new(alloc));
    let written = write_answer(answer, pool, format, &mut sink);
    let text = sink.bytes().strip_prefix(front.as_bytes());
    written.is_ok() && text.and_then(|text| text.strip_suffix(b"\n")) == Some(line.as_bytes())
}

// Whether an answer is put as this line, and in Turtle as a comment, but for the usage.
fn is_put_in_both(alloc: Global, answer: &Answer, line: &str) -> Result<bool, RowFault> {
    let pool = vocabulary_pool(alloc, VOCABULARY_LEN)?;
    let front = match answer {
        Answer::Usage => "",
        _ => "# ",
    };
    Ok(
        is_put(alloc, answer, &pool, Format::Lines, ("", line))
            && is_put(alloc, answer, &pool, Format::Turtle, (front, line)),
    )
}

// Whether the answer of a row is put as its line.
fn is_as_said(alloc: Global, row: &str) -> Result<bool, RowFault> {
    let (name, line) = cut(row, " : ")?;
    is_put_in_both(alloc, &answer_of(name)?, line.trim_end_matches('='))
}

#[test]
fn answers_are_put_whole(rt: HostRuntime) -> Result<(), Fail> {
    all_met(rt.alloc(), ANSWERS, is_as_said)
}
