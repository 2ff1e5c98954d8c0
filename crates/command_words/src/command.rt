ghost use Rattle.std.specs.Prelude.{◌≡◌, IfOk, option_map};
ghost use Rattle.std.specs.List.{All};
ghost use Rattle.clap.specs.Words.{app_of, found_of};
ghost use Rattle.command_words.specs.Words.{nothing_seen, read_from, texts_of};
ghost use Rattle.command_words.specs.inner.Allowed.{IsAllowed};
ghost use Rattle.command_words.specs.inner.Command.{command_app};
ghost use Rattle.command_words.specs.inner.Found.{AreRead};

use clap::error::ErrorKind;
use clap::{Arg, ArgAction, ArgMatches, Command};
use shx_term::Memory;
use std::alloc::{AllocError, Global};

// Two options and files in any number: how many there may be, and which values, is for whoever asks the
// matches. Nothing in the words asks for help or for a version.
fn command<'a>(alloc: Global) -> Result<Command<'a>, Memory>
    ensures { IfOk result (λ command. app_of command ≡ command_app) }
{
    let format = Arg::new(alloc, "format").long("format");
    let base = Arg::new(alloc, "base").long("base");
    let files = Arg::new(alloc, "files").action(ArgAction::Append);
    Command::new(alloc, "shacl_keep")
        .no_binary_name(true)
        .disable_help_flag(true)
        .arg(format)?
        .arg(base)?
        .arg(files)
}

/// The matches of words, or `None` where they have no reading.
pub(crate) fn matches_of<'a>(
    alloc: Global,
    words: &'a [&'a str],
) -> Result<Option<ArgMatches<'a>>, Memory>
    requires { All (λ word. IsAllowed word.now) words.now }
    ensures { IfOk result (λ matches.
        AreRead (option_map found_of matches) (read_from nothing_seen (texts_of words.entry.now))) }
{
    match command(alloc)?.try_get_matches_from(words) {
        Ok(matches) => Ok(Some(matches)),
        Err(error) => match error.kind() {
            ErrorKind::OutOfMemory => Err(AllocError),
            _ => Ok(None),
        },
    }
}
