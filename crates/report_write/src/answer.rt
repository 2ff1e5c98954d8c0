ghost use Rattle.std.specs.Prelude.{◌≡◌, ◌++◌, codes, decimal};
ghost use Rattle.report_write.specs.Answers.{answer_text, code_of_length, code_text, fault_head, line_start};
ghost use Rattle.report_write.specs.Answers.{line_text, refusal_head, shape_fault_head, triple_text};
ghost use Rattle.text_output.specs.TermTexts.{number_text};
ghost use Rattle.text_output.specs.Writes.{Writes};

use crate::roles::role_name;
use shx_outside::{Role, Sink};
use shx_term::fault_codes::{SCRIPT_TOO_LONG, TEXT_TOO_LONG, code_name};
use shx_term::{Id, Pieces, Pool, Triple};
use text_output::{Format, WriteFault, Writer, add_number, add_term};

/// What is said to a line of a script, before a report, or in its place. Terms are told by their numbers.
#[derive(Clone, Copy, Debug, PartialEq, Eq)]
pub enum Answer {
    /// The graph is another one, for which so many pairs were evaluated.
    Changed {
        evaluated: u64,
    },
    Unchanged,
    /// The shapes are other ones, for which so many pairs were evaluated.
    ShapesTaken {
        evaluated: u64,
    },
    /// A group of edits is open.
    Begun,
    /// An edit waits in the group.
    Queued,
    /// The group is given up.
    Abandoned,
    Count {
        /// Of the graph.
        triples: u64,
        /// A shape that is evaluated by itself, with one of its focus nodes, is a pair.
        pairs: u64,
        /// Of the report.
        results: u64,
    },
    /// The results of a pair rest on so many triples.
    Slice {
        triples: u64,
    },
    /// One of these.
    SliceTriple(Triple),
    /// A line is refused. Lines are counted from 1.
    RefusedLine {
        line: u64,
        code: u32,
    },
    RefusedAt {
        line: u64,
        code: u32,
        /// The byte of the line at which the fault stands, from 0.
        at: u64,
    },
    /// A text has a fault of Turtle.
    TextFault {
        role: Role,
        code: u32,
        /// The byte of the text at which the fault stands, from 0.
        at: u64,
    },
    /// A text is longer than it may be.
    TooLong {
        role: Role,
    },
    /// A shape breaks a rule: by a value of `predicate`, or a member of a list there, which is `term`.
    Rule {
        code: u32,
        shape: Id,
        predicate: Id,
        term: Id,
    },
    /// A shape has a fault that is not of one value: it reaches itself, say.
    OfShape {
        code: u32,
        shape: Id,
    },
    /// So many triples of the shapes have sh:sparql as their predicate (SHACL, section 5), and are not read.
    Notice {
        count: u64,
    },
    /// The script ended within a group, whose edits were not made.
    GroupDropped,
    Usage,
}

const USAGE: &[u8] =
    b"usage: shacl_keep [--format lines|turtle] [--base IRI] SHAPES DATA [SCRIPT]\n";

/// Puts an answer whole. It takes no memory, and time linear in the text.
///
/// # Errors
///
/// The sink failed, and a proper front of the text was put.
pub fn write_answer<O: Sink>(
    answer: &Answer,
    pool: &Pool,
    format: Format,
    out: &mut O,
) -> Result<(), WriteFault>
    ensures { Writes (O.state out.old) (O.state out.new)
        (answer_text format pool.now.terms answer.now) result }
{
    let mut writer = Writer::new(out);
    add_answer(answer, pool, format, &mut writer);
    writer.finish()
}

/// Adds an answer: in Turtle as a comment, but for the usage.
pub fn add_answer<W: Pieces>(answer: &Answer, pool: &Pool, format: Format, out: &mut W)
    ensures { W.added out.old out.new (answer_text format pool.now.terms answer.now) }
{
    out.add(line_start(format, answer).as_bytes());
    add_line(answer, pool, out);
}

// What stands before an answer in its line.
fn line_start(format: Format, answer: &Answer) -> &'static str
    ensures { result.now ≡ line_start format answer.now }
{
    match (format, answer) {
        (Format::Lines, _) | (Format::Turtle, Answer::Usage) => "",
        (Format::Turtle, _) => "# ",
    }
}

fn add_line<W: Pieces>(answer: &Answer, pool: &Pool, out: &mut W)
    ensures { W.added out.old out.new (line_text pool.now.terms answer.now) }
{
    match answer {
        Answer::Changed { evaluated } => add_evaluated(b"ok changed evaluated ", *evaluated, out),
        Answer::Unchanged => out.add(b"ok unchanged evaluated 0\n"),
        Answer::ShapesTaken { evaluated } => add_evaluated(
            b"ok shapes evaluated ",
            *evaluated,
            out,
        ),
        Answer::Begun => out.add(b"ok begun\n"),
        Answer::Queued => out.add(b"ok queued\n"),
        Answer::Abandoned => out.add(b"ok abandoned\n"),
        Answer::Count {
            triples,
            pairs,
            results,
        } => add_count(*triples, *pairs, *results, out),
        Answer::Slice { triples } => add_slice(*triples, out),
        Answer::SliceTriple(triple) => add_triple(triple, pool, out),
        Answer::RefusedLine { line, code } => add_refusal(*line, *code, out),
        Answer::RefusedAt { line, code, at } => add_refusal_at(*line, *code, *at, out),
        Answer::TextFault { role, code, at } => add_text_fault(*role, *code, *at, out),
        Answer::TooLong { role } => add_fault(*role, code_of_length(*role), out),
        Answer::Rule {
            code,
            shape,
            predicate,
            term,
        } => add_rule(*code, *shape, *predicate, *term, pool, out),
        Answer::OfShape { code, shape } => add_shape_fault(*code, *shape, pool, out),
        Answer::Notice { count } => add_notice(*count, out),
        Answer::GroupDropped => out.add(b"notice: open group dropped\n"),
        Answer::Usage => out.add(USAGE),
    }
}

// What came of a line, and how many pairs were evaluated for it.
fn add_evaluated<W: Pieces>(what: &[u8], evaluated: u64, out: &mut W)
    ensures { W.added out.old out.new (what.now ++ decimal evaluated ++ codes "\n") }
{
    out.add(what);
    add_number(evaluated, out);
    out.add(b"\n");
}

fn add_count<W: Pieces>(triples: u64, pairs: u64, results: u64, out: &mut W)
    ensures { W.added out.old out.new (codes "count triples=" ++ decimal triples ++ codes " pairs="
        ++ decimal pairs ++ codes " results=" ++ decimal results ++ codes "\n") }
{
    out.add(b"count triples=");
    add_number(triples, out);
    out.add(b" pairs=");
    add_number(pairs, out);
    out.add(b" results=");
    add_number(results, out);
    out.add(b"\n");
}

fn add_slice<W: Pieces>(triples: u64, out: &mut W)
    ensures { W.added out.old out.new (codes "slice triples=" ++ decimal triples ++ codes "\n") }
{
    out.add(b"slice triples=");
    add_number(triples, out);
    out.add(b"\n");
}

fn add_triple<W: Pieces>(triple: &Triple, pool: &Pool, out: &mut W)
    ensures { W.added out.old out.new (triple_text pool.now.terms triple.now) }
{
    out.add(b"triple ");
    add_term(triple.s, pool, out);
    out.add(b" ");
    add_term(triple.p, pool, out);
    out.add(b" ");
    add_term(triple.o, pool, out);
    out.add(b"\n");
}

fn add_refusal<W: Pieces>(line: u64, code: u32, out: &mut W)
    ensures { W.added out.old out.new (refusal_head line code ++ codes "\n") }
{
    add_refusal_head(line, code, out);
    out.add(b"\n");
}

fn add_refusal_at<W: Pieces>(line: u64, code: u32, at: u64, out: &mut W)
    ensures { W.added out.old out.new (refusal_head line code ++ codes " at " ++ decimal at ++ codes "\n") }
{
    add_refusal_head(line, code, out);
    out.add(b" at ");
    add_number(at, out);
    out.add(b"\n");
}

fn add_refusal_head<W: Pieces>(line: u64, code: u32, out: &mut W)
    ensures { W.added out.old out.new (refusal_head line code) }
{
    out.add(b"refused line ");
    add_number(line, out);
    out.add(b": ");
    add_code(code, out);
}

fn add_text_fault<W: Pieces>(role: Role, code: u32, at: u64, out: &mut W)
    ensures { W.added out.old out.new (fault_head role code ++ codes " at " ++ decimal at ++ codes "\n") }
{
    add_fault_head(role, code, out);
    out.add(b" at ");
    add_number(at, out);
    out.add(b"\n");
}

fn add_fault<W: Pieces>(role: Role, code: u32, out: &mut W)
    ensures { W.added out.old out.new (fault_head role code ++ codes "\n") }
{
    add_fault_head(role, code, out);
    out.add(b"\n");
}

fn add_rule<W: Pieces>(code: u32, shape: Id, predicate: Id, term: Id, pool: &Pool, out: &mut W)
    ensures { W.added out.old out.new
        (shape_fault_head pool.now.terms code shape ++ codes " predicate "
        ++ number_text pool.now.terms predicate ++ codes " term " ++ number_text pool.now.terms term
        ++ codes "\n") }
{
    add_shape_fault_head(code, shape, pool, out);
    out.add(b" predicate ");
    add_term(predicate, pool, out);
    out.add(b" term ");
    add_term(term, pool, out);
    out.add(b"\n");
}

fn add_shape_fault<W: Pieces>(code: u32, shape: Id, pool: &Pool, out: &mut W)
    ensures { W.added out.old out.new (shape_fault_head pool.now.terms code shape ++ codes "\n") }
{
    add_shape_fault_head(code, shape, pool, out);
    out.add(b"\n");
}

fn add_shape_fault_head<W: Pieces>(code: u32, shape: Id, pool: &Pool, out: &mut W)
    ensures { W.added out.old out.new (shape_fault_head pool.now.terms code shape) }
{
    add_fault_head(Role::Shapes, code, out);
    out.add(b" shape ");
    add_term(shape, pool, out);
}

fn add_notice<W: Pieces>(count: u64, out: &mut W)
    ensures { W.added out.old out.new
        (codes "notice: " ++ decimal count ++ codes " sh:sparql triples ignored\n") }
{
    out.add(b"notice: ");
    add_number(count, out);
    out.add(b" sh:sparql triples ignored\n");
}

fn add_fault_head<W: Pieces>(role: Role, code: u32, out: &mut W)
    ensures { W.added out.old out.new (fault_head role code) }
{
    out.add(b"fault ");
    out.add(role_name(role).as_bytes());
    out.add(b": ");
    add_code(code, out);
}

// The code of a text that is longer than it may be.
fn code_of_length(role: Role) -> u32
    ensures { result ≡ code_of_length role }
{
    match role {
        Role::Shapes | Role::Data => TEXT_TOO_LONG,
        Role::Script => SCRIPT_TOO_LONG,
    }
}

fn add_code<W: Pieces>(code: u32, out: &mut W)
    ensures { W.added out.old out.new (code_text code) }
{
    add_number(code, out);
    out.add(b" ");
    out.add(code_name(code).as_bytes());
}
