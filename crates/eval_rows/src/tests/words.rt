//! Terms by words, and words of terms.
ghost use Rattle.std.specs.Prelude.{◌<◌, IfOk, length};

use super::due::Due;
use row_tools::{RowFault, term};
use shx_term::{Id, Literal, Pool, Term, XSD_STRING};
use std::alloc::Global;

/// The number of the term of a word.
pub(super) fn id_of(alloc: Global, pool: &Pool, word: &str) -> Result<Id, RowFault>
    ensures { IfOk result (λ id. id < length pool.now.terms) }
{
    match pool.find(&term(alloc, word)?) {
        Some(id) if id < pool.len() => Ok(id),
        _ => Err(RowFault::Unread),
    }
}

/// Takes the word of a term, with a blank before it.
pub(super) fn take_term(pool: &Pool, id: Id, due: &mut Due) {
    due.take(" ");
    if id >= pool.len() {
        return due.take("no term");
    }
    match pool.term(id) {
        Term::Iri(iri) => take_iri(iri.as_str(), due),
        Term::Blank(_) => due.take("_"),
        Term::Lit(literal) => take_literal(literal, due),
    }
}

/// The same, or `-` for none.
pub(super) fn take_any(pool: &Pool, id: Option<Id>, due: &mut Due) {
    match id {
        Some(id) => take_term(pool, id, due),
        None => due.take(" -"),
    }
}

fn take_iri(iri: &str, due: &mut Due) {
    match iri.strip_prefix("http://e/") {
        Some(name) => {
            due.take("e:");
            due.take(name);
        }
        None => due.take(iri),
    }
}

// The lexical form between quotes, and behind it a language tag, or the name of the datatype.
fn take_literal(literal: &Literal, due: &mut Due) {
    due.take("'");
    due.take(literal.lexical.as_str());
    due.take("'");
    if let Some(tag) = &literal.tag {
        due.take("@");
        return due.take(tag.as_str());
    }
    let datatype = literal.datatype.as_str();
    if datatype != XSD_STRING {
        let (_, name) = datatype.rsplit_once('#').unwrap_or(("", datatype));
        due.take("^^");
        due.take(name);
    }
}
