//! `ttl_triples BASE TEXT`: the triples that a text of Turtle states over a base, a line each, by the
//! spelling of their terms; or the fault of the text. It serves to compare `ttl_read` with other readers.
//!
//! | file | what it holds |
//! |---|---|
//! | `triples.rt` | the lines of a text |
//! | `main.rt` | the program over a file and standard output |
//!
//! It stands on `ttl_read`, `iri_resolve`, `text_input`, `shx_outside` and `shx_term`.
#![tactic(auto)]

mod triples;

use shx_outside::{FileInputs, Role};
use shx_term::Limits;
use std::io::Write;
use std::process::ExitCode;
use std::rt::{Env, Files};
use std::{env, io};
use text_input::{ReadFault, read_text};
use triples::lines_of;

fn main(rt: HostRuntime) -> ExitCode {
    ExitCode::from(status(&rt))
}

// 0 where all is written, else 1.
fn status<R: Env + Files + Print + AllocGlobal>(rt: &R) -> u8 {
    match lines_of_words(rt) {
        Ok(lines) => u8::from(io::writer(rt).write_all(&lines).is_err()),
        Err(_) => 1,
    }
}

fn lines_of_words<R: Env + Files + AllocGlobal>(rt: &R) -> Result<Vec<u8>, ReadFault> {
    let Ok(args) = env::args(rt) else {
        return Err(ReadFault::Input);
    };
    let mut words = args.skip(1);
    let (Some(base), Some(name)) = (words.next(), words.next()) else {
        return Err(ReadFault::Input);
    };
    let most = Limits::program().text;
    let text = read_text(
        rt.alloc(),
        &mut FileInputs::new(rt),
        Role::Data,
        &name,
        most,
    )?;
    Ok(lines_of(rt.alloc(), &base, &text)?)
}
