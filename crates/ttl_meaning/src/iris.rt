//! Which IRI a token stands for, and what it is used for.
ghost use Rattle.std.specs.Prelude.{◌≡◌, ◌++◌, OnOk, IfOk};
ghost use Rattle.std.specs.Option.{option_copied};
ghost use Rattle.ttl_tokens.specs.Unescaped.{IsGiven};
ghost use Rattle.iri_resolve.specs.Resolution.{IsAbsolute};
ghost use Rattle.ttl_meaning.specs.inner.IsReading.{DoesSound, Finds};
ghost use Rattle.ttl_meaning.specs.Items.{used};
ghost use Rattle.ttl_meaning.specs.KeepsTerms.{KeepsTerms};
ghost use Rattle.ttl_meaning.specs.inner.Meant.{IsMeant};
ghost use Rattle.ttl_meaning.specs.Terms.{iri_of as iri_meant, iri_of_reference, in_namespace, local_of};
ghost use Rattle.ttl_meaning.specs.Terms.{said};

use crate::fault::{NoTerm, TermFaultKind};
use crate::placed::Placed;
use crate::reader_state::ReaderState;
use crate::terms::{prefix_text, token_text, typed};
use iri_resolve::{IriFault, resolve};
use shx_term::{IriText, Memory, Pool, Term};
use std::alloc::Global;
use ttl_tokens::{Token, TokenKind, unescape, unescape_onto};

/// What an IRI is used for.
#[derive(Clone, Copy, Debug, PartialEq, Eq)]
pub enum IriRole {
    /// a subject or an object
    Node,
    Verb,
    /// the datatype of the string before it
    Datatype,
}

impl ReaderState {
    // The IRI that a token stands for: an `IRIREF`, a `PNAME_LN` or a `PNAME_NS`.
    pub(crate) fn iri_of(&self, text: &str, token: &Token) -> Result<IriText, NoTerm>
        requires { IsGiven text.now token.now }
        ensures { Finds (iri_meant text.now token.now) self.now result }
    {
        match token.kind {
            TokenKind::IriRef => self.reference(text, token),
            _ => named(
                self.alloc,
                self.prefixes.get(prefix_text(text, token)),
                text,
                token,
            ),
        }
    }

    // The reference of an `IRIREF`, over the base in force.
    pub(crate) fn reference(&self, text: &str, token: &Token) -> Result<IriText, NoTerm>
        requires { IsGiven text.now token.now }
        ensures found { Finds (λ s. iri_of_reference s.base (said text.now token.now)) self.now result }
        ensures absolute { IfOk result IsAbsolute }
    {
        over_base(self.alloc, self.base.iri(), text, token)
    }

    // An IRI is used.
    pub(crate) fn use_iri(
        &mut self,
        pool: &mut Pool,
        role: IriRole,
        iri: IriText,
    ) -> Result<(), Memory>
        ensures keeps { KeepsTerms pool.old pool.new }
        ensures does { OnOk result (DoesSound (used role iri) self.old pool.old self.new pool.new) }
    {
        match role {
            IriRole::Node => self.put(pool, Placed::Term(Term::Iri(iri))),
            IriRole::Verb => self.begin_verb(Placed::Term(Term::Iri(iri))),
            IriRole::Datatype => {
                let lexical = self.take_held();
                self.put_literal(pool, self.held_at, typed(lexical, iri.interned()))
            }
        }
    }
}

// The reference of an `IRIREF`, over a base.
pub(crate) fn over_base(
    alloc: Global,
    base: &IriText,
    text: &str,
    token: &Token,
) -> Result<IriText, NoTerm>
    requires given { IsGiven text.now token.now }
    requires base { IsAbsolute base.now }
    ensures meant { IsMeant (iri_of_reference base.now (said text.now token.now)) result }
    ensures absolute { IfOk result IsAbsolute }
{
    let reference = unescape(alloc, text, token)?;
    match resolve(alloc, base, &reference) {
        Ok(iri) => Ok(iri),
        Err(IriFault::NotAllowed) => Err(NoTerm::Fault(TermFaultKind::BadIri)),
        Err(IriFault::Memory) => Err(NoTerm::Memory),
    }
}

// A prefixed name, where its prefix stands for this.
pub(crate) fn named(
    alloc: Global,
    namespace: Option<&IriText>,
    text: &str,
    token: &Token,
) -> Result<IriText, NoTerm>
    requires { IsGiven text.now token.now }
    ensures { IsMeant (in_namespace (option_copied namespace.entry)
        (local_of token.now.kind text.now token.now)) result }
{
    let Some(namespace) = namespace else {
        return Err(NoTerm::Fault(TermFaultKind::UnknownPrefix));
    };
    match token.kind {
        TokenKind::PnameLn => Ok(joined(alloc, namespace, text, token)?),
        _ => Ok(namespace.copy(alloc)?),
    }
}

// A namespace with the local name of a token behind it.
fn joined(alloc: Global, namespace: &IriText, text: &str, token: &Token) -> Result<IriText, Memory>
    requires { IsGiven text.now token.now }
    ensures { IfOk result (λ iri. iri ≡ namespace.now ++ said text.now token.now) }
{
    // The token is its prefix, a colon and the local name, which is no longer than it is written.
    let local = token_text(text, token)
        .len()
        .saturating_sub(prefix_text(text, token).len() + 1);
    let mut out = String::with_capacity(alloc, namespace.as_str().len() + local)?;
    out.push_str(namespace.as_str())?;
    unescape_onto(&mut out, text, token)?;
    Ok(IriText::new(out))
}
