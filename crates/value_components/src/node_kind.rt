//! sh:nodeKind (SHACL, section 4.1.3).
ghost use Rattle.std.specs.Prelude.{◌≡◌};
ghost use Rattle.value_components.specs.NodeKind.{kinds_of};

use crate::condition::{Condition, check_terms};
use comp_core::kinds::NODE_KIND;
use comp_core::{At, Component, Conform, Pair, ResultRow};
use graph_view::GraphView;
use shx_term::vocabulary::{
    SH_BLANK_NODE, SH_BLANK_NODE_OR_IRI, SH_BLANK_NODE_OR_LITERAL, SH_IRI, SH_IRI_OR_LITERAL,
    SH_LITERAL,
};
use shx_term::{Id, Memory, Term};
use std::alloc::Global;

const KINDS_OF_IRIS: [Id; 3] = [SH_IRI, SH_BLANK_NODE_OR_IRI, SH_IRI_OR_LITERAL];

const KINDS_OF_BLANK_NODES: [Id; 3] = [
    SH_BLANK_NODE,
    SH_BLANK_NODE_OR_IRI,
    SH_BLANK_NODE_OR_LITERAL,
];

const KINDS_OF_LITERALS: [Id; 3] = [SH_LITERAL, SH_BLANK_NODE_OR_LITERAL, SH_IRI_OR_LITERAL];

/// Each value node is of the kind.
#[derive(Drop)]
pub struct NodeKind {
    /// One of the six kinds of `sh:nodeKind`.
    pub value: Id,
}

impl NodeKind {
    /// The component with its parameter. It takes no memory.
    pub fn new(value: Id) -> NodeKind
        ensures { result.value ≡ value }
    {
        NodeKind { value }
    }
}

// The kinds that a term is of.
fn kinds_of(term: &Term) -> &'static [Id]
    ensures { result.now ≡ kinds_of term.now }
{
    match term {
        Term::Iri(_) => &KINDS_OF_IRIS,
        Term::Blank(_) => &KINDS_OF_BLANK_NODES,
        Term::Lit(_) => &KINDS_OF_LITERALS,
    }
}

impl Condition for NodeKind {
    ghost use Rattle.value_components.specs.NodeKind.{is_of_kind};

    ghost holds_of = { λ c t. is_of_kind c.value t };

    fn holds(&self, term: &Term) -> bool {
        kinds_of(term).contains(&self.value)
    }
}

impl<'p> Component<'p> for NodeKind {
    type Known = ();

    ghost use Rattle.std.specs.Prelude.{[]};
    ghost use Rattle.value_components.specs.NodeKind.{node_kind_hits};

    ghost knows = { λ known g. Unit };

    ghost is_read_of = { λ c terms. Unit };

    ghost numbers_of = { λ c. [] };

    ghost asks_of = { λ c vs. [] };

    ghost hits_of = { λ c g m at vs. node_kind_hits c g at vs };

    ghost reads_of = { λ c g r at vs. [] };

    fn asks(&self, _values: &[Id], _out: &mut Vec<Pair>) -> Result<(), Memory> {
        Ok(())
    }

    fn check<V: GraphView, C: Conform>(
        &'p self,
        alloc: Global,
        view: &V,
        _conform: &C,
        _known: &mut (),
        at: At,
        values: &[Id],
        _reads: &mut C::Noted,
        out: &mut Vec<ResultRow>,
    ) -> Result<(), Memory> {
        check_terms(alloc, view, self, NODE_KIND, at, values, out)
    }

    fn laws() {}
}
