ghost use Rattle.std.specs.Prelude.{◌≡◌, ◌++◌, None, OnOk, true, position};
ghost use Rattle.shx_term.specs.Spelling.{spelling_of, bracketed, is_escaped, escaped, escaped_byte};
ghost use Rattle.shx_term.specs.Spelling.{blank_spelling, literal_spelling, kind_spelling};

use crate::{IriText, Literal, LocalName, Memory, Pieces, Scope, Term, Text};
use itoa::Buffer;

/// The datatype of a literal that is written with no datatype.
pub const XSD_STRING: &str = "http://www.w3.org/2001/XMLSchema#string";

/// Appends the spelling of a term. It takes time linear in what it appends. After want of memory `out` may
/// hold a part.
pub fn spell(term: &Term, out: &mut Vec<u8>) -> Result<(), Memory>
    ensures { OnOk result (out.new.items ≡ out.old.items ++ spelling_of term.now) }
{
    let mut bytes = Bytes {
        out,
        outcome: Ok(()),
    };
    write_term(term, &mut bytes);
    bytes.outcome
}

/// Adds the spelling of a term to what takes its pieces. A lexical form is added in runs without escapes. It
/// takes no memory of its own, and time linear in the spelling.
pub fn write_term<W: Pieces>(term: &Term, out: &mut W)
    ensures { W.added out.old out.new (spelling_of term.now) }
{
    match term {
        Term::Iri(iri) => write_iri(iri, out),
        Term::Blank(blank) => write_blank(blank.scope, &blank.name, out),
        Term::Lit(literal) => write_literal(literal, out),
    }
}

// Bytes behind a vector, and whether memory was refused.
#[derive(Drop)]
struct Bytes<'a> {
    out: &'a mut Vec<u8>,
    outcome: Result<(), Memory>,
}

impl Pieces for Bytes<'_> {
    ghost use Rattle.std.specs.Prelude.{◌≡◌, refl};
    ghost use Rattle.std.proofs.Common.{◌∙◌};
    ghost use Rattle.shx_term.specs.inner.Appended.{Appended, Appended-nothing, Appended-in_turn};

    ghost added = { λ a b text. (a.out.ghost_name ≡ b.out.ghost_name)
        × Appended a.outcome b.outcome a.out.now.items b.out.now.items text };

    ghost added_nothing = { λ a. (refl, Appended-nothing a.outcome a.out.now.items) };

    ghost added_in_turn = { λ a b c x y p q. (p.0 ∙ q.0, Appended-in_turn _ _ _ _ _ _ _ _ p.1 q.1) };

    fn add(&mut self, piece: &[u8]) {
        if self.outcome.is_ok() {
            self.outcome = self.out.extend_from_slice(piece);
        }
    }
}

fn write_iri<W: Pieces>(iri: &IriText, out: &mut W)
    ensures { W.added out.old out.new (bracketed iri.now) }
{
    out.add(b"<");
    out.add(iri.as_str().as_bytes());
    out.add(b">");
}

fn write_blank<W: Pieces>(scope: Scope, name: &LocalName, out: &mut W)
    ensures { W.added out.old out.new (blank_spelling scope name.now) }
{
    match (scope, name) {
        (Scope::Data, LocalName::Labelled(label)) => write_two(b"_:d-", label.as_str(), out),
        (Scope::Shapes, LocalName::Labelled(label)) => write_two(b"_:s-", label.as_str(), out),
        (Scope::Data, LocalName::Anonymous(number)) => write_two(
            b"_:a-",
            Buffer::new().format(*number),
            out,
        ),
        (Scope::Shapes, LocalName::Anonymous(number)) => write_two(
            b"_:t-",
            Buffer::new().format(*number),
            out,
        ),
    }
}

fn write_two<W: Pieces>(front: &[u8], back: &str, out: &mut W)
    ensures { W.added out.old out.new (front.now ++ back.now) }
{
    out.add(front);
    out.add(back.as_bytes());
}

fn write_literal<W: Pieces>(literal: &Literal, out: &mut W)
    ensures { W.added out.old out.new (literal_spelling literal.now) }
{
    out.add(b"\"");
    write_escaped(literal.lexical.as_str().as_bytes(), out);
    out.add(b"\"");
    write_kind(&literal.tag, &literal.datatype, out);
}

fn write_escaped<W: Pieces>(bytes: &[u8], out: &mut W)
    ensures { W.added out.old out.new (escaped bytes.now) }
{
    let mut rest = bytes;
    while let Some(at) = first_escaped(rest) {
        let (run, behind) = rest.split_at(at);
        write_run(run, out);
        out.add(escape(behind[0]));
        rest = &behind[1..];
    }
    write_run(rest, out);
}

fn first_escaped(bytes: &[u8]) -> Option<usize>
    ensures { result ≡ position is_escaped bytes.now }
{
    bytes.iter().position(|byte| needs_escape(*byte))
}

// Adds a text that may be empty, and then no piece.
fn write_run<W: Pieces>(run: &[u8], out: &mut W)
    ensures { W.added out.old out.new run.now }
{
    if !run.is_empty() {
        out.add(run);
    }
}

fn needs_escape(byte: u8) -> bool
    ensures { result ≡ is_escaped byte }
{
    matches!(byte, b'"' | b'\\' | b'\n' | b'\r')
}

fn escape(byte: u8) -> &'static [u8]
    requires { is_escaped byte ≡ true }
    ensures { result.now ≡ escaped_byte byte }
{
    match byte {
        b'"' => b"\\\"",
        b'\\' => b"\\\\",
        b'\n' => b"\\n",
        _ => b"\\r",
    }
}

fn write_kind<W: Pieces>(tag: &Option<Text>, datatype: &IriText, out: &mut W)
    ensures { W.added out.old out.new (kind_spelling tag.now datatype.now) }
{
    match tag {
        Some(tag) => write_two(b"@", tag.as_str(), out),
        None => write_datatype(datatype, out),
    }
}

fn write_datatype<W: Pieces>(datatype: &IriText, out: &mut W)
    ensures { W.added out.old out.new (kind_spelling None datatype.now) }
{
    if datatype.as_str() == XSD_STRING {
        return;
    }
    out.add(b"^^");
    write_iri(datatype, out);
}
