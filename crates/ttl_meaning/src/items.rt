//! What each item of the grammar does. Behind a term with a fault nothing more is read.
ghost use Rattle.std.specs.Prelude.{◌≡◌, OnOk};
ghost use Rattle.ttl_tokens.specs.declared.token.TokenKind.TheVariants.{BlankLabel, LangTag};
ghost use Rattle.shx_term.specs.Pool.{Pooled};
ghost use Rattle.ttl_tokens.specs.Unescaped.{IsGiven};
ghost use Rattle.ttl_meaning.specs.inner.IsReading.{Does};
ghost use Rattle.ttl_meaning.specs.Items.{on_literal as literal_item, on_string as string_item, plain_string};
ghost use Rattle.ttl_meaning.specs.Items.{on_tag as tag_item, on_iri as iri_item, on_a as a_item};
ghost use Rattle.ttl_meaning.specs.Items.{on_label as label_item, on_anon as anon_item, open_node};
ghost use Rattle.ttl_meaning.specs.Items.{close_node};
ghost use Rattle.ttl_meaning.specs.Items.{first_cell, next_cell, behind_member, end_list, empty_list};
ghost use Rattle.ttl_meaning.specs.Items.{begin_statement};
ghost use Rattle.ttl_meaning.specs.KeepsTerms.{KeepsTerms};

use crate::context::Context;
use crate::fault::{NoTerm, TermFault};
use crate::iris::IriRole;
use crate::literals::bare;
use crate::placed::Placed;
use crate::reader_state::ReaderState;
use crate::terms::{anonymous, string_datatype, tag_text, tagged, token_text, typed};
use shx_term::vocabulary::{RDF_FIRST, RDF_NIL, RDF_REST, RDF_TYPE};
use shx_term::{IriText, Memory, Pool};
use std::alloc::AllocError;
use ttl_tokens::{Token, unescape};

impl ReaderState {
    /// A statement begins.
    pub fn begin_statement(&mut self) -> Result<(), Memory>
        ensures { (pool : Pooled) → OnOk result (Does begin_statement self.old pool self.new pool) }
    {
        if self.fault.is_some() {
            return Ok(());
        }
        self.contexts.clear();
        self.contexts.push(Context::Open)?;
        Ok(())
    }

    /// An `IRIREF`, a `PNAME_LN` or a `PNAME_NS`. The look-up of a prefix takes time logarithmic in their
    /// number.
    pub fn on_iri(
        &mut self,
        pool: &mut Pool,
        text: &str,
        role: IriRole,
        token: &Token,
    ) -> Result<(), Memory>
        requires { IsGiven text.now token.now }
        ensures keeps { KeepsTerms pool.old pool.new }
        ensures does { OnOk result
            (Does (iri_item text.now role token.now) self.old pool.old self.new pool.new) }
    {
        if self.fault.is_some() {
            return Ok(());
        }
        match self.iri_of(text, token) {
            Ok(iri) => self.use_iri(pool, role, iri),
            Err(NoTerm::Fault(kind)) => {
                let at = token.start;
                self.fault = Some(TermFault { kind, at });
                Ok(())
            }
            Err(NoTerm::Memory) => Err(AllocError),
        }
    }

    /// `a` as a verb.
    pub fn on_a(&mut self) -> Result<(), Memory>
        ensures { (pool : Pooled) → OnOk result (Does a_item self.old pool self.new pool) }
    {
        if self.fault.is_some() {
            return Ok(());
        }
        self.begin_verb(Placed::Id(RDF_TYPE))
    }

    /// A literal that is written without quotes: `INTEGER`, `DECIMAL`, `DOUBLE`, `true` or `false`.
    pub fn on_literal(&mut self, pool: &mut Pool, text: &str, token: &Token) -> Result<(), Memory>
        requires { IsGiven text.now token.now }
        ensures keeps { KeepsTerms pool.old pool.new }
        ensures does { OnOk result
            (Does (literal_item text.now token.now) self.old pool.old self.new pool.new) }
    {
        if self.fault.is_some() {
            return Ok(());
        }
        let literal = bare(self.alloc, text, token)?;
        self.put_literal(pool, token.start, literal)
    }

    /// A string waits for its tag or datatype.
    pub fn on_string(&mut self, text: &str, token: &Token) -> Result<(), Memory>
        requires { IsGiven text.now token.now }
        ensures { (pool : Pooled) → OnOk result
            (Does (string_item text.now token.now) self.old pool self.new pool) }
    {
        if self.fault.is_some() {
            return Ok(());
        }
        self.held = unescape(self.alloc, text, token)?;
        self.held_at = token.start;
        Ok(())
    }

    /// The string that waits has neither tag nor datatype.
    pub fn plain_string(&mut self, pool: &mut Pool) -> Result<(), Memory>
        ensures keeps { KeepsTerms pool.old pool.new }
        ensures does { OnOk result (Does plain_string self.old pool.old self.new pool.new) }
    {
        if self.fault.is_some() {
            return Ok(());
        }
        let datatype = IriText::from_str(self.alloc, string_datatype())?;
        let lexical = self.take_held();
        self.put_literal(pool, self.held_at, typed(lexical, datatype))
    }

    /// The `LANGTAG` of the string that waits.
    pub fn on_tag(&mut self, pool: &mut Pool, text: &str, token: &Token) -> Result<(), Memory>
        requires given { IsGiven text.now token.now }
        requires kind { token.now.kind ≡ LangTag }
        ensures keeps { KeepsTerms pool.old pool.new }
        ensures does { OnOk result (Does (tag_item text.now token.now) self.old pool.old self.new pool.new) }
    {
        if self.fault.is_some() {
            return Ok(());
        }
        let lexical = self.take_held();
        let literal = tagged(self.alloc, lexical, tag_text(text, token))?;
        self.put_literal(pool, self.held_at, literal)
    }

    /// A `BLANK_NODE_LABEL`.
    pub fn on_label(&mut self, pool: &mut Pool, text: &str, token: &Token) -> Result<(), Memory>
        requires given { IsGiven text.now token.now }
        requires kind { token.now.kind ≡ BlankLabel }
        ensures keeps { KeepsTerms pool.old pool.new }
        ensures does { OnOk result
            (Does (label_item text.now token.now) self.old pool.old self.new pool.new) }
    {
        if self.fault.is_some() {
            return Ok(());
        }
        self.put_label(pool, &token_text(text, token)[2..])
    }

    /// `ANON`.
    pub fn on_anon(&mut self, pool: &mut Pool) -> Result<(), Memory>
        ensures keeps { KeepsTerms pool.old pool.new }
        ensures does { OnOk result (Does anon_item self.old pool.old self.new pool.new) }
    {
        if self.fault.is_some() {
            return Ok(());
        }
        self.put_new(pool)
    }

    /// `[`: a new node, of which what follows speaks.
    pub fn open_node(&mut self, pool: &mut Pool) -> Result<(), Memory>
        ensures keeps { KeepsTerms pool.old pool.new }
        ensures does { OnOk result (Does open_node self.old pool.old self.new pool.new) }
    {
        if self.fault.is_some() {
            return Ok(());
        }
        let node = anonymous(self.scope, self.next);
        self.put_new(pool)?;
        self.enter(Context::About(Placed::Term(node)))
    }

    /// `]`
    pub fn close_node(&mut self)
        ensures { (pool : Pooled) → Does close_node self.old pool self.new pool }
    {
        if self.fault.is_none() {
            self.leave();
        }
    }

    /// The first cell of a collection, at its first member.
    pub fn first_cell(&mut self, pool: &mut Pool) -> Result<(), Memory>
        ensures keeps { KeepsTerms pool.old pool.new }
        ensures does { OnOk result (Does first_cell self.old pool.old self.new pool.new) }
    {
        if self.fault.is_some() {
            return Ok(());
        }
        let cell = anonymous(self.scope, self.next);
        self.put_new(pool)?;
        self.enter(Context::Of(Placed::Term(cell), Placed::Id(RDF_FIRST)))
    }

    /// The next cell of a collection, at its member.
    pub fn next_cell(&mut self, pool: &mut Pool) -> Result<(), Memory>
        ensures keeps { KeepsTerms pool.old pool.new }
        ensures does { OnOk result (Does next_cell self.old pool.old self.new pool.new) }
    {
        if self.fault.is_some() {
            return Ok(());
        }
        let cell = anonymous(self.scope, self.next);
        self.put_new(pool)?;
        self.leave();
        self.enter(Context::Of(Placed::Term(cell), Placed::Id(RDF_FIRST)))
    }

    /// Behind a member its cell waits for the rest of the collection.
    pub fn behind_member(&mut self) -> Result<(), Memory>
        ensures { (pool : Pooled) → OnOk result (Does behind_member self.old pool self.new pool) }
    {
        if self.fault.is_some() {
            return Ok(());
        }
        self.begin_verb(Placed::Id(RDF_REST))
    }

    /// `)` behind members.
    pub fn end_list(&mut self, pool: &mut Pool) -> Result<(), Memory>
        ensures keeps { KeepsTerms pool.old pool.new }
        ensures does { OnOk result (Does end_list self.old pool.old self.new pool.new) }
    {
        if self.fault.is_some() {
            return Ok(());
        }
        self.put(pool, Placed::Id(RDF_NIL))?;
        self.leave();
        Ok(())
    }

    /// `()`
    pub fn empty_list(&mut self, pool: &mut Pool) -> Result<(), Memory>
        ensures keeps { KeepsTerms pool.old pool.new }
        ensures does { OnOk result (Does empty_list self.old pool.old self.new pool.new) }
    {
        if self.fault.is_some() {
            return Ok(());
        }
        self.put(pool, Placed::Id(RDF_NIL))
    }
}
