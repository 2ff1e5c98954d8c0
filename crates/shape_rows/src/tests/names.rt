//! What rows call terms, and how they write lists of them.
use super::due::Due;
use id_list::IdList;
use shx_term::{Id, LocalName, Pool, Term};

/// The part of an IRI behind its `#`; the IRIs of rows have none.
pub(super) fn local_name(iri: &str) -> &str {
    match iri.rsplit_once('#') {
        Some((_, name)) => name,
        None => iri,
    }
}

/// Takes what rows call a term.
pub(super) fn take_name(pool: &Pool, id: Id, due: &mut Due) {
    if id >= pool.len() {
        return due.take("no term");
    }
    match pool.term(id) {
        Term::Iri(iri) => due.take(local_name(iri.as_str())),
        Term::Blank(blank) => take_label(&blank.name, due),
        Term::Lit(literal) => take_quoted(literal.lexical.as_str(), due),
    }
}

fn take_label(name: &LocalName, due: &mut Due) {
    match name {
        LocalName::Labelled(label) => {
            due.take("_");
            due.take(label.as_str());
        }
        LocalName::Anonymous(_) => due.take("no label"),
    }
}

fn take_quoted(lexical: &str, due: &mut Due) {
    due.take("'");
    due.take(lexical);
    due.take("'");
}

/// Takes the names of terms, with a blank before each.
pub(super) fn take_names(pool: &Pool, ids: &[Id], due: &mut Due) {
    for id in ids {
        due.take(" ");
        take_name(pool, *id, due);
    }
}

/// Takes the members of a list between brackets, or `none` for no list, with a blank before it.
pub(super) fn take_list(pool: &Pool, members: &Option<IdList>, due: &mut Due) {
    match members {
        Some(members) => {
            due.take(" (");
            take_names(pool, members.as_slice(), due);
            due.take(" )");
        }
        None => due.take(" none"),
    }
}
