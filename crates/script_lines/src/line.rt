//! The command of a line.
ghost use Rattle.std.specs.Prelude.{◌≢◌, Ok, Err, IfOk, IfErr};
ghost use Rattle.shx_term.specs.ValidTriples.{IsValidTermTriple};
ghost use Rattle.script_lines.specs.Forms.{HasForm};
ghost use Rattle.script_lines.specs.inner.Parts.{HasPair, HasTerms};
ghost use Rattle.script_lines.specs.Lines.{IsAsked, IsLineRead, IsPairRead, IsTripleRead};
ghost use Rattle.script_lines.specs.Lines.{IsValidCommand};

use crate::line_form::{LineForm, PairTokens, Terms, form_of};
use crate::term::{predicate_at, shape_at, term_at};
use crate::{Command, LineFault};
use shx_term::fault_codes::{LINE_NOT_UTF8, LINE_SYNTAX, LINE_TOO_LONG};
use shx_term::{Edit, Limits, TermTriple, Text};
use std::alloc::Global;
use ttl_read::Document;
use ttl_tokens::unescape;

/// What a line without its line feed asks for, behind a data text, whose base, prefixes and blank nodes are
/// those of its terms. It takes time and memory linear in the line, and to look up a prefix or a label, time
/// logarithmic in their number; and neither for a line that is too long.
///
/// # Errors
///
/// `Line` with the first of these that holds: `LINE_TOO_LONG` where the line has more bytes than
/// `limits.line`, `LINE_NOT_UTF8`, `LINE_SYNTAX` where it has no form of a line, and else the fault of its
/// first term that has one, with its byte. `Memory` where an allocation is refused.
pub fn read_line(
    alloc: Global,
    line: &[u8],
    document: &Document,
    limits: &Limits,
) -> Result<Command, LineFault>
    ensures command { IfOk result (λ command. IsLineRead limits.now document.now line.now (Ok command)) }
    ensures valid { IfOk result IsValidCommand }
    ensures refused { IfErr result (λ fault. fault ≢ LineFault.Memory
        → IsLineRead limits.now document.now line.now (Err fault)) }
{
    if line.len() as u64 > limits.line {
        return Err(LineFault::of_line(LINE_TOO_LONG));
    }
    let Ok(text) = str::from_utf8(line) else {
        return Err(LineFault::of_line(LINE_NOT_UTF8));
    };
    match form_of(text) {
        Some(form) => command_of(alloc, text, &form, document),
        None => Err(LineFault::of_line(LINE_SYNTAX)),
    }
}

// What a line of this form asks for.
fn command_of(
    alloc: Global,
    line: &str,
    form: &LineForm,
    document: &Document,
) -> Result<Command, LineFault>
    requires { HasForm line.now form.now }
    ensures command { IfOk result (λ command. IsAsked line.now document.now form.now (Ok command)) }
    ensures valid { IfOk result IsValidCommand }
    ensures refused { IfErr result (λ fault. fault ≢ LineFault.Memory
        → IsAsked line.now document.now form.now (Err fault)) }
{
    match form {
        LineForm::Blank => Ok(Command::Nothing),
        LineForm::Alone(word) => Ok(word.command()),
        LineForm::Insert(terms) => {
            let triple = read_triple(alloc, line, terms, document)?;
            Ok(Command::Edit(Edit::Insert(triple)))
        }
        LineForm::Remove(terms) => {
            let triple = read_triple(alloc, line, terms, document)?;
            Ok(Command::Edit(Edit::Remove(triple)))
        }
        LineForm::Slice(pair) => read_pair(alloc, line, pair, document),
        LineForm::Shapes(name) => {
            let name = Text::new(unescape(alloc, line, name)?);
            Ok(Command::Shapes(name))
        }
    }
}

// The triple whose terms begin at these tokens.
fn read_triple(
    alloc: Global,
    line: &str,
    terms: &Terms,
    document: &Document,
) -> Result<TermTriple, LineFault>
    requires { HasTerms line.now terms.now }
    ensures triple { IfOk result (λ triple. IsTripleRead line.now document.now terms.now (Ok triple)) }
    ensures valid { IfOk result IsValidTermTriple }
    ensures refused { IfErr result (λ fault. fault ≢ LineFault.Memory
        → IsTripleRead line.now document.now terms.now (Err fault)) }
{
    let s = term_at(alloc, line, &terms.subject, document)?;
    let p = predicate_at(alloc, line, &terms.predicate, document)?;
    let o = term_at(alloc, line, &terms.object, document)?;
    Ok(TermTriple { s, p, o })
}

// The slice of the pair whose terms begin at these tokens.
fn read_pair(
    alloc: Global,
    line: &str,
    pair: &PairTokens,
    document: &Document,
) -> Result<Command, LineFault>
    requires { HasPair line.now pair.now }
    ensures command { IfOk result (λ command. IsPairRead line.now document.now pair.now (Ok command)) }
    ensures valid { IfOk result IsValidCommand }
    ensures refused { IfErr result (λ fault. fault ≢ LineFault.Memory
        → IsPairRead line.now document.now pair.now (Err fault)) }
{
    let shape = shape_at(alloc, line, &pair.shape, document)?;
    let node = term_at(alloc, line, &pair.node, document)?;
    Ok(Command::Slice { shape, node })
}
