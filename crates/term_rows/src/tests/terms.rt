use super::{holds, order_name};
use row_tools::{
    RowFault, all_met, anonymous, cut, in_three, iri_text, label, spelled, term, text,
};
use shx_term::{IriText, Scope, Term, cmp_terms, spell};
use std::alloc::Global;
use std::cmp::Ordering;
use std::test::Fail;

// Terms of each kind, in the order of terms, each with its spelling. A `~` is a line feed.
const TERMS: &str = "\
<http://e/Z>|<http://e/Z>
e:a|<http://e/a>
e:ä|<http://e/ä>
data:L|_:d-L
data:Mé|_:d-Mé
shapes:L|_:s-L
data#7|_:a-7
data#10|_:a-10
shapes#7|_:t-7
'x'^^http://www.w3.org/1999/02/22-rdf-syntax-ns#langString|\
\"x\"^^<http://www.w3.org/1999/02/22-rdf-syntax-ns#langString>
'x'@de|\"x\"@de
'x'@en|\"x\"@en
'10'^^integer|\"10\"^^<http://www.w3.org/2001/XMLSchema#integer>
'9'^^integer|\"9\"^^<http://www.w3.org/2001/XMLSchema#integer>
''|\"\"
'5'|\"5\"
'a\"b\\c~d\re\tf'|\"a\\\"b\\\\c\\nd\\re\tf\"
'ä€😀'|\"ä€😀\"";

// The term of a row.
fn term_of(alloc: Global, row: &str) -> Result<Term, RowFault> {
    let (word, _) = cut(row, "|")?;
    let word = word.replace(alloc, "~", "\n")?;
    term(alloc, word.as_str())
}

// Whether the row's term and a copy of it are equal and written as the row says.
fn is_spelled(alloc: Global, row: &str) -> Result<bool, RowFault> {
    let (_, spelling) = cut(row, "|")?;
    let term = term_of(alloc, row)?;
    let copy = term.copy(alloc)?;
    Ok(copy == term && spelled(alloc, &copy)?.as_str() == spelling)
}

#[test]
fn terms_are_spelled(rt: HostRuntime) -> Result<(), Fail> {
    all_met(rt.alloc(), TERMS, is_spelled)
}

#[test]
fn spelling_appends(rt: HostRuntime) -> Result<(), Fail> {
    let mut out = b"- ".to_vec(rt.alloc())?;
    spell(&anonymous(Scope::Data, 0), &mut out)?;
    holds(Ok(out.as_slice() == b"- _:a-0".as_slice()))
}

// Whether every comparison of two terms says this.
fn compares_as(a: &Term, b: &Term, order: Ordering) -> bool {
    cmp_terms(a, b) == order
        && a.cmp(b) == order
        && (a < b) == order.is_lt()
        && (a == b) == order.is_eq()
}

// Whether the row's term is greater than those before it, equal to itself, and less than those behind it.
fn is_in_order(alloc: Global, row: &str) -> Result<bool, RowFault> {
    let term = term_of(alloc, row)?;
    let mut order = Ordering::Greater;
    for other in TERMS.lines() {
        if other == row {
            order = Ordering::Equal;
        }
        if !compares_as(&term, &term_of(alloc, other)?, order) {
            return Ok(false);
        }
        if other == row {
            order = Ordering::Less;
        }
    }
    Ok(true)
}

#[test]
fn terms_are_ordered(rt: HostRuntime) -> Result<(), Fail> {
    all_met(rt.alloc(), TERMS, is_in_order)
}

// Two texts, and how they compare. A `~` is a line feed.
const TEXTS: &str = "\
ä~|b|greater
b|ä~|less
b|b|equal
|b|less
http://e/a|http://e/b|less
http://e/a|http://e/a|equal
http://www.w3.org/2001/XMLSchema#string|http://www.w3.org/2001/XMLSchema#string|equal
http://www.w3.org/2001/XMLSchema#integer|http://www.w3.org/2001/XMLSchema#int|greater
http://www.w3.org/2001/XMLSchema#date|http://www.w3.org/2001/XMLSchema#dateTime|less
http://www.w3.org/1999/02/22-rdf-syntax-ns#langString|http://www.w3.org/2001/XMLSchema#float|less
b1|b2|less
b2|b10|greater";

// Whether two texts, of either kind, compare as this says.
fn is_order_of<T: Ord>(order: &str, a: &T, b: &T) -> bool {
    order_name(a.cmp(b)) == order && (a == b) == (order == "equal")
}

fn are_texts(alloc: Global, a: &str, b: &str, order: &str) -> Result<bool, RowFault> {
    let first = text(alloc, a)?;
    let copy = first.copy(alloc)?;
    let second = text(alloc, b)?;
    Ok(copy.as_str() == a && copy == first && is_order_of(order, &first, &second))
}

fn are_iri_texts(alloc: Global, a: &str, b: &str, order: &str) -> Result<bool, RowFault> {
    let first = iri_text(alloc, a)?;
    let copy = first.copy(alloc)?;
    let second = IriText::from_str(alloc, b)?;
    let kept = copy.as_str() == a && copy == first && (first == second) == (order == "equal");
    let (first, second) = (Term::Iri(first.interned()), Term::Iri(second.copy(alloc)?));
    Ok(kept && is_order_of(order, &first, &second))
}

fn are_labels(alloc: Global, a: &str, b: &str, order: &str) -> Result<bool, RowFault> {
    let first = label(alloc, a)?;
    let copy = first.copy(alloc)?;
    let second = label(alloc, b)?;
    Ok(copy.as_str() == a && copy == first && is_order_of(order, &first, &second))
}

// Whether texts, texts of IRIs and labels keep the row's first text, and compare as the row says.
fn are_kept(alloc: Global, row: &str) -> Result<bool, RowFault> {
    let row = row.replace(alloc, "~", "\n")?;
    let (a, b, order) = in_three(row.as_str(), "|")?;
    Ok(
        are_texts(alloc, a, b, order)?
            && are_iri_texts(alloc, a, b, order)?
            && are_labels(alloc, a, b, order)?,
    )
}

#[test]
fn texts_are_kept_and_ordered(rt: HostRuntime) -> Result<(), Fail> {
    all_met(rt.alloc(), TEXTS, are_kept)
}
