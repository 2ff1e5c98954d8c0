ghost use Rattle.std.specs.Prelude.{◌≡◌, None};

use crate::counted::count_up;
use crate::{Failed, Sink};
use std::io;
use std::io::Write;
use std::marker::Model;

/// Standard output. Each put is one write to it, with nothing kept back. It counts each write that fails or
/// takes nothing.
#[derive(Drop)]
pub struct StdSink<'a, P: Print> {
    output: &'a P,
    errors: u64,
}

impl<'a, P: Print> Model for StdSink<'a, P> {
    ghost use Rattle.std.specs.Prelude.{ℕ};

    ghost Value = { ℕ };

    ghost view = { λ a. a.errors };
}

impl<'a, P: Print> StdSink<'a, P> {
    pub fn new(output: &'a P) -> StdSink<'a, P>
        ensures { result ≡ 0 }
    {
        StdSink { output, errors: 0 }
    }
}

impl<'a, P: Print> Sink for StdSink<'a, P> {
    ghost state = { λ errors. record { held = None; room = None; faults = errors } };

    fn put(&mut self, piece: &[u8]) -> Result<usize, Failed> {
        match io::writer(self.output).write(piece) {
            Ok(count) if count > 0 => Ok(count),
            _ => {
                count_up(&mut self.errors);
                Err(Failed)
            }
        }
    }
}
