ghost use Rattle.std.specs.Prelude.{◌≡◌, fold};
ghost use Rattle.shx_term.specs.declared.term.Term.{Term};
ghost use Rattle.shx_term.specs.TermOrder.{term_cmp, alike_cmp, texts_cmp, tags_cmp};
ghost use Rattle.shx_term.specs.TermOrder.{kind_of, rank_of, scope_of, number_of, head_of, lexical_of};
ghost use Rattle.shx_term.specs.TermOrder.{tag_number_of, tag_of};
ghost use Rattle.shx_term.specs.inner.TermEquality.{same_parts, same_blank, same_name, same_literal};
ghost use Rattle.shx_term.specs.inner.TermHash.{hashed_blank, hashed_literal};

use crate::{BlankName, Literal, LocalName, Scope, Term};
use std::cmp::Ordering;
use std::hash::{Hash, Hasher};

/// Compares two terms. IRIs come first, by their bytes; then blank nodes with a label, those of the data
/// before those of the shapes, by label; then anonymous blank nodes likewise, by number; then literals by
/// datatype, lexical form and tag, no tag first. It takes no memory, stops at the first part that differs,
/// and takes time linear in the shorter texts.
pub fn cmp_terms(a: &Term, b: &Term) -> Ordering
    ensures { result ≡ term_cmp a.now b.now }
{
    match kind(a).cmp(&kind(b)) {
        Ordering::Equal => cmp_alike(a, b),
        by_kind => by_kind,
    }
}

// Compares two terms of one kind.
fn cmp_alike(a: &Term, b: &Term) -> Ordering
    ensures { result ≡ alike_cmp a.now b.now }
{
    match scope(a).cmp(&scope(b)) {
        Ordering::Equal => match number(a).cmp(&number(b)) {
            Ordering::Equal => cmp_texts(a, b),
            by_number => by_number,
        },
        by_scope => by_scope,
    }
}

// Compares two terms by their texts and tags.
fn cmp_texts(a: &Term, b: &Term) -> Ordering
    ensures { result ≡ texts_cmp a.now b.now }
{
    match head(a).cmp(head(b)) {
        Ordering::Equal => match lexical(a).cmp(lexical(b)) {
            Ordering::Equal => cmp_tags(a, b),
            by_lexical => by_lexical,
        },
        by_head => by_head,
    }
}

// Compares two terms by their tags, no tag first.
fn cmp_tags(a: &Term, b: &Term) -> Ordering
    ensures { result ≡ tags_cmp a.now b.now }
{
    match tag_number(a).cmp(&tag_number(b)) {
        Ordering::Equal => tag(a).cmp(tag(b)),
        by_tag_number => by_tag_number,
    }
}

/// Terms that compare as equal are one term: all their parts are equal.
pub fn equal_terms_are_one()
    ensures { (a b : Term) → term_cmp a b ≡ Ordering.Equal → a ≡ b }
{}

fn kind(term: &Term) -> u8
    ensures { result ≡ kind_of term.now }
{
    match term {
        Term::Iri(_) => 0,
        Term::Blank(blank) => match &blank.name {
            LocalName::Labelled(_) => 1,
            LocalName::Anonymous(_) => 2,
        },
        Term::Lit(_) => 3,
    }
}

fn rank(scope: Scope) -> u8
    ensures { result ≡ rank_of scope }
{
    match scope {
        Scope::Data => 0,
        Scope::Shapes => 1,
    }
}

fn scope(term: &Term) -> u8
    ensures { result ≡ scope_of term.now }
{
    match term {
        Term::Iri(_) => 0,
        Term::Blank(blank) => rank(blank.scope),
        Term::Lit(_) => 0,
    }
}

fn number(term: &Term) -> u32
    ensures { result ≡ number_of term.now }
{
    match term {
        Term::Iri(_) => 0,
        Term::Blank(blank) => match &blank.name {
            LocalName::Labelled(_) => 0,
            LocalName::Anonymous(number) => *number,
        },
        Term::Lit(_) => 0,
    }
}

fn head(term: &Term) -> &str
    ensures { result.now ≡ head_of term.now }
{
    match term {
        Term::Iri(iri) => iri.as_str(),
        Term::Blank(blank) => match &blank.name {
            LocalName::Labelled(label) => label.as_str(),
            LocalName::Anonymous(_) => "",
        },
        Term::Lit(literal) => literal.datatype.as_str(),
    }
}

fn lexical(term: &Term) -> &str
    ensures { result.now ≡ lexical_of term.now }
{
    match term {
        Term::Iri(_) => "",
        Term::Blank(_) => "",
        Term::Lit(literal) => literal.lexical.as_str(),
    }
}

fn tag_number(term: &Term) -> u8
    ensures { result ≡ tag_number_of term.now }
{
    match term {
        Term::Iri(_) => 0,
        Term::Blank(_) => 0,
        Term::Lit(literal) => match &literal.tag {
            None => 0,
            Some(_) => 1,
        },
    }
}

fn tag(term: &Term) -> &str
    ensures { result.now ≡ tag_of term.now }
{
    match term {
        Term::Iri(_) => "",
        Term::Blank(_) => "",
        Term::Lit(literal) => match &literal.tag {
            None => "",
            Some(tag) => tag.as_str(),
        },
    }
}

// Whether two terms have the same parts. Texts of different lengths are told apart at once.
fn same_parts(a: &Term, b: &Term) -> bool
    ensures { result ≡ same_parts a.now b.now }
{
    match (a, b) {
        (Term::Iri(a), Term::Iri(b)) => a == b,
        (Term::Blank(a), Term::Blank(b)) => same_blank(a, b),
        (Term::Lit(a), Term::Lit(b)) => same_literal(a, b),
        _ => false,
    }
}

fn same_blank(a: &BlankName, b: &BlankName) -> bool
    ensures { result ≡ same_blank a.now b.now }
{
    rank(a.scope) == rank(b.scope) && same_name(&a.name, &b.name)
}

fn same_name(a: &LocalName, b: &LocalName) -> bool
    ensures { result ≡ same_name a.now b.now }
{
    match (a, b) {
        (LocalName::Labelled(a), LocalName::Labelled(b)) => a == b,
        (LocalName::Anonymous(a), LocalName::Anonymous(b)) => a == b,
        _ => false,
    }
}

fn same_literal(a: &Literal, b: &Literal) -> bool
    ensures { result ≡ same_literal a.now b.now }
{
    a.lexical == b.lexical && a.datatype == b.datatype && a.tag == b.tag
}

impl PartialEq for Term {
    ghost use Rattle.std.specs.Cmp;
    ghost use Rattle.shx_term.specs.TermOrder.{same_term};
    ghost use Rattle.shx_term.specs.inner.TermOrderLaws.{same_term_equiv};

    ghost eq = { same_term };

    ghost laws = { Cmp.partial_equiv_from_equiv same_term_equiv };

    fn eq(&self, other: &Self) -> bool {
        same_parts(self, other)
    }
}

impl Eq for Term {
    ghost use Rattle.shx_term.specs.inner.TermOrderLaws.{same_term_equiv};

    ghost laws = { same_term_equiv };
}

impl PartialOrd for Term {
    ghost use Rattle.std.specs.Prelude.{Some};
    ghost use Rattle.std.specs.Cmp.{partial_order_from_total};
    ghost use Rattle.shx_term.specs.TermOrder.{term_cmp};
    ghost use Rattle.shx_term.specs.inner.TermOrderLaws.{term_cmp_total};

    ghost partial_cmp = { λ a b. Some (term_cmp a b) };

    ghost laws = { partial_order_from_total term_cmp_total };

    fn partial_cmp(&self, other: &Self) -> Option<Ordering> {
        Some(self.cmp(other))
    }
}

// The order is total: one of two terms is less, or they are one; and it goes on over a third.
impl Ord for Term {
    ghost use Rattle.std.specs.Prelude.{refl};
    ghost use Rattle.shx_term.specs.TermOrder.{term_cmp};
    ghost use Rattle.shx_term.specs.inner.TermOrderLaws.{term_cmp_total};

    ghost cmp = { term_cmp };

    ghost total = { term_cmp_total };

    ghost matches_partial_cmp = { λ x y. refl };

    ghost matches_eq = { λ x y. refl };

    fn cmp(&self, other: &Self) -> Ordering {
        cmp_terms(self, other)
    }
}

impl Hash for Term {
    ghost use Rattle.std.proofs.Common.{ap};
    ghost use Rattle.shx_term.specs.inner.TermHash.{hashed};
    ghost use Rattle.shx_term.specs.inner.TermOrderLaws.{same_term_exact};

    ghost hash_input = { hashed };

    ghost respects_eq = { λ a b h. ap hashed (same_term_exact a b h) };

    fn hash<H: Hasher>(&self, state: &mut H) {
        match self {
            Term::Iri(iri) => {
                state.write_u8(0);
                state.write(iri.as_str().as_bytes());
            }
            Term::Blank(blank) => hash_blank(blank, state),
            Term::Lit(literal) => hash_literal(literal, state),
        }
    }
}

fn hash_blank<H: Hasher>(blank: &BlankName, state: &mut H)
    ensures { state.new ≡ fold H.write state.old (hashed_blank blank.now) }
{
    match blank.scope {
        Scope::Data => state.write_u8(1),
        Scope::Shapes => state.write_u8(2),
    }
    match &blank.name {
        LocalName::Labelled(label) => {
            state.write_u8(0);
            state.write(label.as_str().as_bytes());
        }
        LocalName::Anonymous(number) => {
            state.write_u8(1);
            state.write_u32(*number);
        }
    }
}

fn hash_literal<H: Hasher>(literal: &Literal, state: &mut H)
    ensures { state.new ≡ fold H.write state.old (hashed_literal literal.now) }
{
    match &literal.tag {
        None => state.write_u8(3),
        Some(tag) => {
            state.write_u8(4);
            tag.hash(state);
        }
    }
    literal.lexical.hash(state);
    state.write(literal.datatype.as_str().as_bytes());
}
