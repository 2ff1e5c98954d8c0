ghost use Rattle.std.specs.Prelude.{[]};
ghost use Rattle.text_output.specs.Writes.{Writes, SentUnless};

use shx_outside::{Failed, Sink};

/// Puts a text unless the sink failed before, and answers whether it has failed.
pub fn put_unless<O: Sink>(failed: bool, text: &[u8], out: &mut O) -> bool
    ensures { SentUnless failed result (O.state out.old) (O.state out.new) text.now [] }
{
    if failed {
        return true;
    }
    put_all(text, out).is_err()
}

// Puts a text whole, in as many pieces as the sink asks for.
fn put_all<O: Sink>(text: &[u8], out: &mut O) -> Result<(), Failed>
    ensures { Writes (O.state out.old) (O.state out.new) text.now result }
{
    let mut rest = text;
    while !rest.is_empty() {
        let count = out.put(rest)?;
        rest = &rest[count..];
    }
    Ok(())
}
