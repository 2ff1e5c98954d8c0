//! The words of a program's command line, as the system gives them.
//!
//! | file | what it holds |
//! |---|---|
//! | `no_words.rt` | `NoWords`: why a program has none |
//!
//! It stands on `shx_term` for texts and want of memory. Start with `words_of`.
#![tactic(auto)]

ghost use Rattle.std.specs.Prelude.{◌≡◌, ◌≢◌, Err, drop, map, string_bytes, IfOk, IfErr};
ghost use Rattle.std.specs.Vec.Iter.{into_iter_items};
ghost use Rattle.program_words.specs.declared.no_words.NoWords.TheVariants as no_words;

mod no_words;

pub use no_words::NoWords;
use shx_term::Text;
use std::alloc::Global;
use std::env;
use std::env::Args;
use std::io::ErrorKind;
use std::rt::Env;

/// The words behind the program's name, or why there are none.
pub fn read_words<R: Env + AllocGlobal>(rt: &R) -> Result<Vec<Text>, NoWords> {
    match env::args(rt) {
        Ok(args) => words_of(rt.alloc(), Ok(args)),
        Err(error) => words_of(rt.alloc(), Err(error.kind())),
    }
}

/// The words of these but the first, which is the program's name; or why there are none, where the system
/// gave none, or memory is wanting.
pub fn words_of(alloc: Global, args: Result<Args, ErrorKind>) -> Result<Vec<Text>, NoWords>
    ensures words { IfOk args (λ args. IfOk result (λ words.
        words.items ≡ map string_bytes (drop 1 (into_iter_items args)))) }
    ensures memory { IfOk args (λ _. IfErr result (λ why. why ≡ no_words.Memory)) }
    ensures no_memory { IfErr args (λ kind.
        kind ≡ ErrorKind.OutOfMemory → result ≡ Err no_words.Memory) }
    ensures no_words { IfErr args (λ kind.
        kind ≢ ErrorKind.OutOfMemory → result ≡ Err no_words.NoText) }
{
    let mut args = match args {
        Ok(args) => args,
        Err(kind) => return Err(why_none(kind)),
    };
    let _name = args.next();
    let mut words = Vec::new(alloc);
    while let Some(word) = args.next() {
        if words.push(Text::new(word)).is_err() {
            return Err(NoWords::Memory);
        }
    }
    Ok(words)
}

// Why the system gave no words.
fn why_none(kind: ErrorKind) -> NoWords
    ensures memory { kind ≡ ErrorKind.OutOfMemory → result ≡ no_words.Memory }
    ensures other { kind ≢ ErrorKind.OutOfMemory → result ≡ no_words.NoText }
{
    match kind {
        ErrorKind::OutOfMemory => NoWords::Memory,
        _ => NoWords::NoText,
    }
}
