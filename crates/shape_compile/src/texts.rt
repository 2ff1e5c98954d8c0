//! Patterns and flags, as shapes state them (SHACL, section 4.4.3).
ghost use Rattle.std.specs.Prelude.{◌≡◌, ◌==◌};
ghost use Rattle.std.specs.List.{list_any};
ghost use Rattle.shape_compile.specs.Patterns.{flags_of, has_letter, text_at};
ghost use Rattle.shape_decl.specs.Declarations.{told_decl};

use shape_decl::ShapeDecl;
use shx_outside::Flags;
use shx_term::vocabulary::SH_FLAGS;
use shx_term::{Id, Pool, Term};

/// The lexical form of the literal that has a number; empty where no literal has it.
pub(crate) fn text_at(pool: &Pool, id: Id) -> &str
    ensures { result.now ≡ text_at pool.now.terms id }
{
    if id >= pool.len() {
        return "";
    }
    match pool.term(id) {
        Term::Lit(literal) => literal.lexical.as_str(),
        Term::Iri(_) => "",
        Term::Blank(_) => "",
    }
}

/// The flags of a shape's pattern.
pub(crate) fn flags_of(pool: &Pool, decl: &ShapeDecl) -> Flags
    ensures { result ≡ flags_of pool.now.terms (told_decl decl.now) }
{
    let ids = decl.values_of(SH_FLAGS);
    Flags {
        i: has_letter(pool, ids, b'i'),
        m: has_letter(pool, ids, b'm'),
        s: has_letter(pool, ids, b's'),
        x: has_letter(pool, ids, b'x'),
    }
}

// Whether a letter stands in the text of one of the literals.
fn has_letter(pool: &Pool, ids: &[Id], letter: u8) -> bool
    ensures { result ≡ has_letter pool.now.terms ids.now letter }
{
    ids.iter().any(|id| has_byte(text_at(pool, *id), letter))
}

fn has_byte(text: &str, letter: u8) -> bool
    ensures { result ≡ list_any (λ c. c == letter) text.now }
{
    text.bytes().any(|byte| byte == letter)
}
