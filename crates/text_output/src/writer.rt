ghost use Rattle.std.specs.Prelude.{◌≡◌, ◌+◌, ◌≤◌, [], length};
ghost use Rattle.text_output.specs.inner.Added.{writer_state, fresh, AddsText, Finishes};
ghost use Rattle.text_output.specs.inner.AddedLaws.{Added-none, Added-then};

use crate::WriteFault;
use crate::pending::{Pending, ROOM};
use crate::put_all::put_unless;
use shx_outside::Sink;
use shx_term::Pieces;

/// Texts on their way into a sink, gathered on the stack so that they are put in few large pieces. After a
/// put that failed nothing more is put; `finish` answers it.
#[derive(Drop)]
pub struct Writer<'a, O: Sink> {
    out: &'a mut O,
    pending: Pending,
    failed: bool,
}

impl<'a, O: Sink> Writer<'a, O> {
    /// Nothing was added yet.
    pub fn new(out: &'a mut O) -> Writer<'a, O>
        ensures { writer_state O.state result ≡ fresh (O.state out.old) out.entry.ghost_name }
    {
        Writer {
            out,
            pending: Pending::new(),
            failed: false,
        }
    }

    /// AddsText a text, and puts what is pending where the text has no room behind it.
    pub fn add(&mut self, text: &[u8])
        ensures { AddsText O.state self.old self.new text.now }
    {
        if text.len() <= self.pending.room() {
            return self.queue(text);
        }
        self.flush();
        if text.len() <= ROOM {
            return self.queue(text);
        }
        self.put(text);
    }

    /// Puts what is pending. An error comes where a put failed, also before.
    pub fn finish(self) -> Result<(), WriteFault>
        ensures { Finishes (writer_state O.state self.entry) (O.state self.exit.0.now) result }
    {
        let Writer {
            out,
            pending,
            failed,
        } = self;
        if put_unless(failed, pending.as_slice(), out) {
            return Err(WriteFault);
        }
        Ok(())
    }

    // AddsText a text that has room.
    fn queue(&mut self, text: &[u8])
        requires { length self.old.pending + length text.now ≤ 8192 }
        ensures { AddsText O.state self.old self.new text.now }
    {
        self.pending.push(text);
    }

    // Puts what is pending.
    fn flush(&mut self)
        ensures added { AddsText O.state self.old self.new [] }
        ensures empty { self.new.pending ≡ [] }
    {
        self.failed = put_unless(self.failed, self.pending.as_slice(), self.out);
        self.pending.clear();
    }

    // AddsText a text by putting it.
    fn put(&mut self, text: &[u8])
        requires { self.old.pending ≡ [] }
        ensures { AddsText O.state self.old self.new text.now }
    {
        self.failed = put_unless(self.failed, text, self.out);
    }
}

impl<'a, O: Sink> Pieces for Writer<'a, O> {
    ghost added = { AddsText O.state };

    fn add(&mut self, piece: &[u8]) {
        Writer::add(self, piece)
    }

    ghost added_nothing = { λ w. Added-none (writer_state O.state w) };

    ghost added_in_turn = { λ a b c x y first next. Added-then first next };
}
