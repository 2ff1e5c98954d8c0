ghost use Rattle.std.specs.Prelude.{◌≡◌, IfOk, IfSome, false, option_map, true};
ghost use Rattle.std.specs.List.{All, list_any};
ghost use Rattle.std.specs.Str.{IsUtf8};
ghost use Rattle.iri_resolve.specs.Resolution.{IsAbsolute};
ghost use Rattle.command_words.specs.Asked.{asked_of};
ghost use Rattle.command_words.specs.Words.{command_words, is_barred, texts_of};
ghost use Rattle.command_words.specs.inner.Allowed.{IsAllowed};

use crate::Asked;
use crate::command::matches_of;
use crate::values::asked_by;
use shx_term::{Memory, Text};
use std::alloc::Global;

/// The words as `read_words` wants them, since what it answers lies in them.
///
/// # Errors
///
/// `Memory` where an allocation is refused.
pub fn word_texts<'a>(alloc: Global, words: &'a [Text]) -> Result<Vec<&'a str>, Memory>
    ensures { IfOk result (λ texts. texts_of texts.items ≡ words.now) }
{
    let mut texts = Vec::new(alloc);
    for word in words {
        texts.push(word.as_str())?;
    }
    Ok(texts)
}

/// What the words ask for, or `None` where they cannot be read:
/// `[--format lines|turtle] [--base IRI] SHAPES DATA [SCRIPT]`. Before `--` an option may stand anywhere, but
/// only once. It takes time and memory linear in the words.
///
/// # Errors
///
/// `Memory` where an allocation is refused.
pub fn read_words<'a>(alloc: Global, words: &'a [&'a str]) -> Result<Option<Asked<'a>>, Memory>
    ensures asked { IfOk result (λ asked.
        option_map asked_of asked ≡ command_words (texts_of words.entry.now)) }
    ensures absolute { IfOk result (λ asked. IfSome asked (λ words. IsAbsolute words.base.now)) }
{
    if !may_stand(words) {
        return Ok(None);
    }
    match matches_of(alloc, words)? {
        Some(matches) => Ok(asked_by(&matches)),
        None => Ok(None),
    }
}

// Whether none of the words is one that is read nowhere.
fn may_stand(words: &[&str]) -> bool
    ensures yes { result ≡ true → All (λ word. IsAllowed word.now) words.now }
    ensures no { result ≡ false → list_any is_barred (texts_of words.now) ≡ true }
{
    for word in words {
        if is_barred(word) {
            return false;
        }
    }
    true
}

// `clap` would take the empty word and `-` as files.
fn is_barred(word: &str) -> bool
    ensures barred { result ≡ is_barred word.now }
    ensures utf8 { IsUtf8 word.now }
{
    word.is_empty() || word == "-"
}
