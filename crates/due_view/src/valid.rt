//! Whether a view may be asked: it is valid, and numbers have terms.
ghost use Rattle.std.specs.Prelude.{[], ◌∷◌, All, IsTrue};
ghost use Rattle.shx_term.specs.ValidTriples.{IsIri, IsNoLiteral, IsNotWide, IsValidTermTriple};
ghost use Rattle.graph_view.specs.Graph.{HasTerms, IsKnownTriple};
ghost use Rattle.graph_view.specs.ListGraph.{plain_graph};
ghost use Rattle.graph_view.specs.Valid.{IsValidTriple, IsValidView};

use graph_view::{GraphView, ListGraph};
use shx_term::{Id, Pool, Term, Triple};
use value_space::wide;

fn is_no_literal(term: &Term) -> bool
    ensures { IsTrue result → IsNoLiteral term.now }
{
    match term {
        Term::Iri(_) => true,
        Term::Blank(_) => true,
        Term::Lit(_) => false,
    }
}

fn is_iri(term: &Term) -> bool
    ensures { IsTrue result → IsIri term.now }
{
    match term {
        Term::Iri(_) => true,
        Term::Blank(_) => false,
        Term::Lit(_) => false,
    }
}

fn is_not_wide(term: &Term) -> bool
    ensures { IsTrue result → IsNotWide term.now }
{
    match term {
        Term::Iri(_) => true,
        Term::Blank(_) => true,
        Term::Lit(literal) => !wide(literal),
    }
}

fn are_valid_terms(s: &Term, p: &Term, o: &Term) -> bool
    ensures { IsTrue result → IsValidTermTriple (record { s = s.now; p = p.now; o = o.now }) }
{
    is_no_literal(s) && is_iri(p) && is_not_wide(o)
}

fn is_valid_triple(pool: &Pool, t: &Triple) -> bool
    ensures { IsTrue result → IsValidTriple pool.now.terms t.now }
{
    let terms = pool.len();
    if t.s >= terms || t.p >= terms || t.o >= terms {
        return false;
    }
    are_valid_terms(pool.term(t.s), pool.term(t.p), pool.term(t.o))
}

fn are_valid_triples(pool: &Pool, triples: &[Triple]) -> bool
    ensures { IsTrue result → All (IsValidTriple pool.now.terms) triples.now }
{
    for t in triples {
        if !is_valid_triple(pool, t) {
            return false;
        }
    }
    true
}

fn is_none_wide(pool: &Pool) -> bool
    ensures { IsTrue result → All IsNotWide pool.now.terms }
{
    let terms = pool.len();
    for id in 0..terms {
        if !is_not_wide(pool.term(id)) {
            return false;
        }
    }
    true
}

/// Whether no term is a wide literal, and all triples are valid.
pub fn is_valid(graph: &ListGraph) -> bool
    ensures { IsTrue result → IsValidView (plain_graph graph.now) }
{
    let pool = graph.pool();
    is_none_wide(pool) && are_valid_triples(pool, graph.triples())
}

/// Whether all numbers have terms.
pub fn are_known<V: GraphView>(view: &V, ids: &[Id]) -> bool
    ensures { IsTrue result → HasTerms (V.graph view.now) ids.now }
{
    let terms = view.pool().len();
    for id in ids {
        if *id >= terms {
            return false;
        }
    }
    true
}

/// Whether a number has a term.
pub fn is_known<V: GraphView>(view: &V, id: Id) -> bool
    ensures { IsTrue result → HasTerms (V.graph view.now) (id ∷ []) }
{
    id < view.pool().len()
}

/// Whether the numbers of a triple have terms.
pub fn is_known_triple<V: GraphView>(view: &V, t: &Triple) -> bool
    ensures { IsTrue result → IsKnownTriple (V.graph view.now).terms t.now }
{
    let terms = view.pool().len();
    t.s < terms && t.p < terms && t.o < terms
}
