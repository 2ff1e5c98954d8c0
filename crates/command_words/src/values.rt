ghost use Rattle.std.specs.Prelude.{◌≡◌, ℕ, List, IfSome, option_map};
ghost use Rattle.clap.specs.Words.{found_of};
ghost use Rattle.iri_resolve.specs.Resolution.{IsAbsolute};
ghost use Rattle.command_words.specs.Asked.{asked_of};
ghost use Rattle.command_words.specs.Words.{Seen, asked, base_of, files_of, format_of, texts_of};
ghost use Rattle.command_words.specs.inner.Found.{HasSeen, files_by};

use crate::Asked;
use clap::ArgMatches;
use iri_resolve::is_absolute;
use text_output::Format;

const DEFAULT_BASE: &str = "file:///";

/// What the matches ask for, where there are as many files as there may be, and the values can be read.
pub(crate) fn asked_by<'a>(matches: &ArgMatches<'a>) -> Option<Asked<'a>>
    ensures asked { (seen : Seen) → HasSeen (found_of matches.now) seen
        → option_map asked_of result ≡ asked seen }
    ensures absolute { IfSome result (λ asked. IsAbsolute asked.base.now) }
{
    let (shapes_file, data_file, script_file) = files_among(matches.get_strs("files")?)?;
    let format = format_by(matches.get_str("format"))?;
    let base = base_by(matches.get_str("base"))?;
    Some(Asked {
        shapes_file,
        data_file,
        script_file,
        base,
        format,
    })
}

// Two files, or three.
fn files_among<'a>(files: &[&'a str]) -> Option<(&'a str, &'a str, Option<&'a str>)>
    ensures { option_map files_by result ≡ files_of (texts_of files.now) }
{
    match files {
        [shapes_file, data_file] => Some((*shapes_file, *data_file, None)),
        [shapes_file, data_file, script_file] => {
            Some((*shapes_file, *data_file, Some(*script_file)))
        }
        _ => None,
    }
}

fn format_by(name: Option<&str>) -> Option<Format>
    ensures { result ≡ format_of (option_map (λ name. name.now) name.entry) }
{
    match name {
        None => Some(Format::Lines),
        Some("lines") => Some(Format::Lines),
        Some("turtle") => Some(Format::Turtle),
        Some(_) => None,
    }
}

fn base_by<'a>(text: Option<&'a str>) -> Option<&'a str>
    ensures base { option_map (λ base. base.now) result ≡ base_of (option_map (λ text. text.now) text.entry) }
    ensures absolute { IfSome result (λ base. IsAbsolute base.now) }
{
    match text {
        None => Some(DEFAULT_BASE),
        Some(base) if is_absolute(base) => Some(base),
        Some(_) => None,
    }
}
