//! What tokens stand for behind a document.
ghost use Rattle.std.specs.Prelude.{◌≡◌, ℕ, ◌≤◌, map, decimal, Contains, MatchOption};
ghost use Rattle.std.specs.Bool.{Decides};
ghost use Rattle.std.specs.Option.{option_copied};
ghost use Rattle.ttl_tokens.specs.Unescaped.{IsGiven, token_text as text_of};
ghost use Rattle.ttl_meaning.specs.InForce.{IsNodeCalled, binding, in_force};
ghost use Rattle.ttl_meaning.specs.inner.Meant.{IsMeant};
ghost use Rattle.ttl_meaning.specs.Terms.{iri_of as iri_meant, namespace_of};

use crate::document::Document;
use crate::fault::{NoNode, NoTerm};
use crate::iris::{named, over_base};
use crate::node_number::node_number;
use crate::terms::{anonymous, labelled, prefix_text, token_text};
use shx_term::{IriText, Scope, Term};
use std::alloc::Global;
use ttl_tokens::{Token, TokenKind};

impl Document {
    /// The IRI of an `IRIREF`, a `PNAME_LN` or a `PNAME_NS`, by the base and the prefixes at the end of the
    /// text. The look-up of a prefix takes time logarithmic in their number.
    pub fn iri_of(&self, alloc: Global, text: &str, token: &Token) -> Result<IriText, NoTerm>
        requires { IsGiven text.now token.now }
        ensures { IsMeant (iri_meant text.now token.now (in_force self.now)) result }
    {
        match token.kind {
            TokenKind::IriRef => over_base(alloc, &self.base, text, token),
            _ => named(alloc, self.namespace(prefix_text(text, token)), text, token),
        }
    }

    /// The blank node of the text, as one of the data, that is spelled as the token is. The look-up of a
    /// label takes time logarithmic in their number.
    pub fn node_of(&self, alloc: Global, text: &str, token: &Token) -> Result<Term, NoNode>
        requires { IsGiven text.now token.now }
        ensures { IsNodeCalled self.now (text_of text.now token.now) result }
    {
        let name = token_text(text, token);
        if let Some(label) = name.strip_prefix("_:d-") {
            if self.has_label(label) {
                return Ok(labelled(alloc, Scope::Data, label)?);
            }
            return Err(NoNode::Unknown);
        }
        let Some(spelled) = name.strip_prefix("_:a-") else {
            return Err(NoNode::Unknown);
        };
        match self.number(spelled) {
            Some(number) => Ok(anonymous(Scope::Data, number)),
            None => Err(NoNode::Unknown),
        }
    }

    // What a prefix stands for.
    fn namespace(&self, name: &str) -> Option<&IriText>
        ensures { option_copied result ≡ namespace_of name.now (map binding self.now.prefixes.items) }
    {
        let found = self
            .prefixes
            .binary_search_by(|prefix| prefix.name.as_str().cmp(name));
        match found {
            Ok(at) => Some(&self.prefixes[at].iri),
            Err(_) => None,
        }
    }

    // Whether a blank node has this label.
    fn has_label(&self, label: &str) -> bool
        ensures { Decides result (Contains self.now.labels.items label.now) }
    {
        self.labels
            .binary_search_by(|held| held.as_str().cmp(label))
            .is_ok()
    }

    // The number that is spelled so, where it is one of a blank node.
    fn number(&self, spelled: &str) -> Option<u32>
        ensures { MatchOption result
            ((n : ℕ) → n ≤ self.now.anonymous → 1 ≤ n → decimal n ≡ spelled.now → ⊥)
            (λ n. (1 ≤ n) × (n ≤ self.now.anonymous) × (decimal n ≡ spelled.now)) }
    {
        let number = node_number(spelled)?;
        if number <= self.anonymous {
            Some(number)
        } else {
            None
        }
    }
}
