//! Directives.
ghost use Rattle.std.specs.Prelude.{OnOk};
ghost use Rattle.shx_term.specs.Pool.{Pooled};
ghost use Rattle.ttl_tokens.specs.declared.token.TokenKind.TheVariants.{Dot, IriRef};
ghost use Rattle.ttl_meaning.specs.Items.{on_namespace};
ghost use Rattle.ttl_read.specs.Grammar.{base_setting, mark, prefix_binding, token};
ghost use Rattle.ttl_read.specs.inner.Reads.{Advances, ParsesAlone, Stands};

use crate::reader::{Reader, Refused};
use ttl_tokens::TokenKind;

// PNAME_NS IRIREF
pub(crate) fn prefix_binding(text: &str, reader: &mut Reader) -> Result<(), Refused>
    requires stands { Stands text.now reader.old.tokens }
    ensures advances { OnOk result (Advances text.now reader.old.tokens reader.new.tokens) }
    ensures parses { (pool : Pooled) → ParsesAlone text.now (prefix_binding text.now)
        reader.old pool reader.new pool result }
{
    let Some(token) = reader.tokens.next_of(TokenKind::PnameNs) else {
        return Err(Refused::Syntax);
    };
    reader.reading.hold_prefix(text, &token)?;
    reader.tokens.pass(text, token);
    namespace(text, reader)
}

// The namespace of a prefix.
fn namespace(text: &str, reader: &mut Reader) -> Result<(), Refused>
    requires stands { Stands text.now reader.old.tokens }
    ensures advances { OnOk result (Advances text.now reader.old.tokens reader.new.tokens) }
    ensures parses { (pool : Pooled) → ParsesAlone text.now (token IriRef (on_namespace text.now))
        reader.old pool reader.new pool result }
{
    let Some(token) = reader.tokens.next_of(TokenKind::IriRef) else {
        return Err(Refused::Syntax);
    };
    reader.reading.on_namespace(text, &token)?;
    reader.tokens.pass(text, token);
    Ok(())
}

// IRIREF
pub(crate) fn base_setting(text: &str, reader: &mut Reader) -> Result<(), Refused>
    requires stands { Stands text.now reader.old.tokens }
    ensures advances { OnOk result (Advances text.now reader.old.tokens reader.new.tokens) }
    ensures parses { (pool : Pooled) → ParsesAlone text.now (base_setting text.now)
        reader.old pool reader.new pool result }
{
    let Some(token) = reader.tokens.next_of(TokenKind::IriRef) else {
        return Err(Refused::Syntax);
    };
    reader.reading.on_base(text, &token)?;
    reader.tokens.pass(text, token);
    Ok(())
}

// '.'
pub(crate) fn dot(text: &str, reader: &mut Reader) -> Result<(), Refused>
    requires stands { Stands text.now reader.old.tokens }
    ensures advances { OnOk result (Advances text.now reader.old.tokens reader.new.tokens) }
    ensures parses { (pool : Pooled) → ParsesAlone text.now (mark Dot)
        reader.old pool reader.new pool result }
{
    let Some(token) = reader.tokens.next_of(TokenKind::Dot) else {
        return Err(Refused::Syntax);
    };
    reader.tokens.pass(text, token);
    Ok(())
}
