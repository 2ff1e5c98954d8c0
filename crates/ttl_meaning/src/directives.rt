//! What directives do.
ghost use Rattle.std.specs.Prelude.{OnOk};
ghost use Rattle.shx_term.specs.Pool.{Pooled};
ghost use Rattle.ttl_tokens.specs.Unescaped.{IsGiven};
ghost use Rattle.ttl_meaning.specs.inner.IsReading.{Does, KeepsOn};
ghost use Rattle.ttl_meaning.specs.Items.{hold_prefix as held_prefix, on_namespace as namespace_item};
ghost use Rattle.ttl_meaning.specs.Items.{on_base as base_item, bind as bound};

use crate::base::Base;
use crate::fault::{NoTerm, TermFault};
use crate::reader_state::ReaderState;
use crate::terms::prefix_text;
use shx_term::{IriText, Memory};
use std::alloc::AllocError;
use ttl_tokens::Token;

impl ReaderState {
    /// The name in a directive waits for its IRI.
    pub fn hold_prefix(&mut self, text: &str, token: &Token) -> Result<(), Memory>
        requires { IsGiven text.now token.now }
        ensures { (pool : Pooled) → OnOk result
            (Does (held_prefix text.now token.now) self.old pool self.new pool) }
    {
        if self.fault.is_some() {
            return Ok(());
        }
        self.held = String::from_str(self.alloc, prefix_text(text, token))?;
        Ok(())
    }

    /// The namespace of the prefix that was named, by an `IRIREF`.
    pub fn on_namespace(&mut self, text: &str, token: &Token) -> Result<(), Memory>
        requires { IsGiven text.now token.now }
        ensures { (pool : Pooled) → OnOk result
            (Does (namespace_item text.now token.now) self.old pool self.new pool) }
    {
        if self.fault.is_some() {
            return Ok(());
        }
        match self.reference(text, token) {
            Ok(iri) => self.bind(iri),
            Err(NoTerm::Fault(kind)) => {
                let at = token.start;
                self.fault = Some(TermFault { kind, at });
                Ok(())
            }
            Err(NoTerm::Memory) => Err(AllocError),
        }
    }

    /// The base, by an `IRIREF`.
    pub fn on_base(&mut self, text: &str, token: &Token) -> Result<(), Memory>
        requires { IsGiven text.now token.now }
        ensures { (pool : Pooled) → OnOk result
            (Does (base_item text.now token.now) self.old pool self.new pool) }
    {
        if self.fault.is_some() {
            return Ok(());
        }
        match self.reference(text, token) {
            Ok(iri) => {
                self.base = Base::new(iri);
                Ok(())
            }
            Err(NoTerm::Fault(kind)) => {
                let at = token.start;
                self.fault = Some(TermFault { kind, at });
                Ok(())
            }
            Err(NoTerm::Memory) => Err(AllocError),
        }
    }

    // The prefix that was named stands for this namespace.
    fn bind(&mut self, iri: IriText) -> Result<(), Memory>
        ensures { (pool : Pooled) → OnOk result (KeepsOn (bound iri) self.old pool self.new pool) }
    {
        let name = self.take_held();
        self.prefixes.insert(name, iri)?;
        Ok(())
    }
}
