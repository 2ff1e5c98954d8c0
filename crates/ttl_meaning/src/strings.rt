//! Literals.
ghost use Rattle.std.specs.Prelude.{◌≡◌, OnOk, string_bytes, []};
ghost use Rattle.shx_term.specs.Pool.{Pooled};
ghost use Rattle.ttl_meaning.specs.inner.IsReading.{DoesSound, KeepsOn};
ghost use Rattle.ttl_meaning.specs.Items.{put_literal, end_string};
ghost use Rattle.ttl_meaning.specs.KeepsTerms.{KeepsTerms};

use crate::fault::TermFault;
use crate::reader_state::ReaderState;
use crate::terms::judged;
use shx_term::{Literal, Memory, Pool};
use std::mem;

impl ReaderState {
    // A literal that begins at this byte stands here, or has a fault.
    pub(crate) fn put_literal(
        &mut self,
        pool: &mut Pool,
        at: usize,
        literal: Literal,
    ) -> Result<(), Memory>
        ensures keeps { KeepsTerms pool.old pool.new }
        ensures does { OnOk result (DoesSound (put_literal at literal) self.old pool.old self.new pool.new) }
    {
        match judged(literal) {
            Ok(term) => self.put_object(pool, term),
            Err(kind) => {
                self.fault = Some(TermFault { kind, at });
                Ok(())
            }
        }
    }

    // What the string that waits has said. It waits no more.
    pub(crate) fn take_held(&mut self) -> String
        ensures said { string_bytes result ≡ string_bytes self.old.held }
        ensures at { self.new.held_at ≡ self.old.held_at }
        ensures kept { (pool : Pooled) → KeepsOn (λ s. record s { held = [] }) self.old pool self.new pool }
    {
        mem::replace(&mut self.held, String::new(self.alloc))
    }
}
