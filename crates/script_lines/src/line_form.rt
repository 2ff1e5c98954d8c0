//! The form of a line, by its tokens.
ghost use Rattle.std.specs.Prelude.{◌≡◌, ◌↔◌, ◌≤◌, length, IsTrue, MatchOption};
ghost use Rattle.std.specs.Str.{IsCharBoundary};
ghost use Rattle.ttl_tokens.specs.declared.token.Token.{Token as token_type};
ghost use Rattle.ttl_tokens.specs.Tokens.{IsTokenAt};
ghost use Rattle.ttl_read.specs.Grammar.{begins_verb};
ghost use Rattle.script_lines.specs.declared.line_form.LineForm.{LineForm as form_type};
ghost use Rattle.script_lines.specs.declared.line_form.PairTokens.{PairTokens as pair_type};
ghost use Rattle.script_lines.specs.declared.line_form.Terms.{Terms as terms_type};
ghost use Rattle.script_lines.specs.Forms.{BeginsWith, Comes, EndsAt, HasForm, IsName, IsPair, IsTriple};
ghost use Rattle.script_lines.specs.Forms.{is_subject, word_start};
ghost use Rattle.script_lines.specs.inner.Parts.{IsPartedWord, IsStop};

use crate::word::{Word, is_white, word_alone, word_end, word_start};
use ttl_read::{begins_verb, is_iri, is_string, term_end};
use ttl_tokens::{Token, TokenKind, next_token};

/// What a line is, by the tokens that it has.
#[derive(Clone, Copy, Debug)]
pub(crate) enum LineForm {
    Blank,
    Alone(Word),
    Insert(Terms),
    Remove(Terms),
    Slice(PairTokens),
    Shapes(Token),
}

/// The tokens with which the terms of a triple begin.
#[derive(Clone, Copy, Debug)]
pub(crate) struct Terms {
    pub subject: Token,
    pub predicate: Token,
    pub object: Token,
}

/// The tokens with which the terms of a pair begin.
#[derive(Clone, Copy, Debug)]
pub(crate) struct PairTokens {
    pub shape: Token,
    pub node: Token,
}

/// The form of a line, where it has one.
pub(crate) fn form_of(line: &str) -> Option<LineForm>
    ensures { MatchOption result ((form : form_type) → HasForm line.now form → ⊥) (HasForm line.now) }
{
    if ends_at(line, 0) {
        return Some(LineForm::Blank);
    }
    let start = word_start(line);
    if let Some((word, at)) = word_alone(line, start) {
        return alone(line, at, word);
    }
    if let Some(at) = parted_word(line, start, "insert") {
        return Some(LineForm::Insert(triple_at(line, at)?));
    }
    if let Some(at) = parted_word(line, start, "remove") {
        return Some(LineForm::Remove(triple_at(line, at)?));
    }
    if let Some(at) = parted_word(line, start, "slice") {
        return Some(LineForm::Slice(pair_at(line, at)?));
    }
    if let Some(at) = parted_word(line, start, "shapes") {
        return Some(LineForm::Shapes(name_at(line, at)?));
    }
    None
}

// The form of a word with nothing behind it.
fn alone(line: &str, at: usize, word: Word) -> Option<LineForm>
    requires within { at ≤ length line.now }
    requires boundary { IsCharBoundary line.now at }
    ensures { MatchOption result (EndsAt line.now at → ⊥)
        (λ found. (found ≡ form_type.Alone word) × EndsAt line.now at) }
{
    if ends_at(line, at) {
        Some(LineForm::Alone(word))
    } else {
        None
    }
}

// Whether nothing but white space and comments stands from a byte on.
fn ends_at(line: &str, at: usize) -> bool
    requires within { at ≤ length line.now }
    requires boundary { IsCharBoundary line.now at }
    ensures { IsTrue result ↔ EndsAt line.now at }
{
    match next_token(line, at) {
        Ok(token) => token.kind == TokenKind::End,
        Err(_) => false,
    }
}

// The byte behind a word, where the line begins with it and white space stands behind it.
fn parted_word(line: &str, start: usize, word: &str) -> Option<usize>
    requires { start ≡ word_start line.now }
    ensures { MatchOption result (BeginsWith line.now word.now → ⊥) (IsPartedWord line.now word.now) }
{
    let at = word_end(line, start, word)?;
    let byte = line.as_bytes().get(at)?;
    if is_white(*byte) { Some(at) } else { None }
}

// The terms of a pair, where there is one and then nothing more.
fn pair_at(line: &str, at: usize) -> Option<PairTokens>
    requires within { at ≤ length line.now }
    requires boundary { IsCharBoundary line.now at }
    ensures { MatchOption result ((pair : pair_type) → IsPair line.now at pair → ⊥)
        (IsPair line.now at) }
{
    let shape = subject_at(line, at)?;
    let node = token_at(line, shape.end)?;
    if ends_at(line, term_end(line, &node)?) {
        Some(PairTokens { shape, node })
    } else {
        None
    }
}

// The string that comes next, where there is one and then nothing more.
fn name_at(line: &str, at: usize) -> Option<Token>
    requires within { at ≤ length line.now }
    requires boundary { IsCharBoundary line.now at }
    ensures { MatchOption result ((name : token_type) → IsName line.now at name → ⊥)
        (IsName line.now at) }
{
    let name = token_at(line, at)?;
    if is_string(name.kind) && ends_at(line, name.end) {
        Some(name)
    } else {
        None
    }
}

// The terms of a triple, where there is one and then nothing more.
fn triple_at(line: &str, at: usize) -> Option<Terms>
    requires within { at ≤ length line.now }
    requires boundary { IsCharBoundary line.now at }
    ensures { MatchOption result ((terms : terms_type) → IsTriple line.now at terms → ⊥)
        (IsTriple line.now at) }
{
    let subject = subject_at(line, at)?;
    let predicate = predicate_at(line, subject.end)?;
    let object = token_at(line, predicate.end)?;
    if !stops_at(line, term_end(line, &object)?) {
        return None;
    }
    Some(Terms {
        subject,
        predicate,
        object,
    })
}

// The token that comes next, where it begins a subject.
fn subject_at(line: &str, at: usize) -> Option<Token>
    requires within { at ≤ length line.now }
    requires boundary { IsCharBoundary line.now at }
    ensures { MatchOption result ((token : token_type) → Comes line.now at is_subject token → ⊥)
        (Comes line.now at is_subject) }
{
    let token = token_at(line, at)?;
    if is_subject(token.kind) {
        Some(token)
    } else {
        None
    }
}

fn is_subject(kind: TokenKind) -> bool
    ensures { result ≡ is_subject kind }
{
    is_iri(kind) || kind == TokenKind::BlankLabel
}

// The token that comes next, where it begins a predicate.
fn predicate_at(line: &str, at: usize) -> Option<Token>
    requires within { at ≤ length line.now }
    requires boundary { IsCharBoundary line.now at }
    ensures { MatchOption result ((token : token_type) → Comes line.now at begins_verb token → ⊥)
        (Comes line.now at begins_verb) }
{
    let token = token_at(line, at)?;
    if begins_verb(token.kind) {
        Some(token)
    } else {
        None
    }
}

// Whether a dot comes next, and then nothing more.
fn stops_at(line: &str, at: usize) -> bool
    requires within { at ≤ length line.now }
    requires boundary { IsCharBoundary line.now at }
    ensures { IsTrue result ↔ IsStop line.now at }
{
    match token_at(line, at) {
        Some(dot) => dot.kind == TokenKind::Dot && ends_at(line, dot.end),
        None => false,
    }
}

// The token that comes next.
fn token_at(line: &str, at: usize) -> Option<Token>
    requires within { at ≤ length line.now }
    requires boundary { IsCharBoundary line.now at }
    ensures { MatchOption result ((token : token_type) → IsTokenAt line.now at token → ⊥)
        (IsTokenAt line.now at) }
{
    next_token(line, at).ok()
}
