//! Groups of tokens.
ghost use Rattle.std.specs.Prelude.{◌≡◌, ◌||◌};
ghost use Rattle.ttl_read.specs.Depth.{is_dot_or_end, is_open, is_close, is_prefix_or_base};
ghost use Rattle.ttl_read.specs.Grammar.{begins_verb, is_bare_literal, is_iri, is_kind, is_string};
ghost use Rattle.ttl_tokens.specs.declared.token.TokenKind.TheVariants.{BlankLabel};

use ttl_tokens::TokenKind;

/// Tokens that stand for an IRI: a reference, a prefixed name, or a prefix alone.
pub fn is_iri(kind: TokenKind) -> bool
    ensures { result ≡ is_iri kind }
{
    matches!(
        kind,
        TokenKind::IriRef | TokenKind::PnameLn | TokenKind::PnameNs
    )
}

pub fn is_string(kind: TokenKind) -> bool
    ensures { result ≡ is_string kind }
{
    matches!(
        kind,
        TokenKind::StringQuote
            | TokenKind::StringSingleQuote
            | TokenKind::StringLongSingleQuote
            | TokenKind::StringLongQuote
    )
}

pub(crate) fn is_bare_literal(kind: TokenKind) -> bool
    ensures { result ≡ is_bare_literal kind }
{
    matches!(
        kind,
        TokenKind::Integer
            | TokenKind::Decimal
            | TokenKind::Double
            | TokenKind::WordTrue
            | TokenKind::WordFalse
    )
}

/// Tokens with which a verb begins: those of an IRI, and the word `a`.
pub fn begins_verb(kind: TokenKind) -> bool
    ensures { result ≡ begins_verb kind }
{
    is_iri(kind) || kind == TokenKind::WordA
}

// Tokens that are a term by themselves.
pub(crate) fn is_term(kind: TokenKind) -> bool
    ensures { result ≡ (is_iri kind || (is_kind BlankLabel kind || is_bare_literal kind)) }
{
    is_iri(kind) || kind == TokenKind::BlankLabel || is_bare_literal(kind)
}

pub(crate) fn begins_literal(kind: TokenKind) -> bool
    ensures { result ≡ (is_string kind || is_bare_literal kind) }
{
    is_string(kind) || is_bare_literal(kind)
}

pub(crate) fn is_dot_or_end(kind: TokenKind) -> bool
    ensures { result ≡ is_dot_or_end kind }
{
    matches!(kind, TokenKind::Dot | TokenKind::End)
}

pub(crate) fn is_open(kind: TokenKind) -> bool
    ensures { result ≡ is_open kind }
{
    matches!(kind, TokenKind::OpenSquare | TokenKind::OpenRound)
}

pub(crate) fn is_close(kind: TokenKind) -> bool
    ensures { result ≡ is_close kind }
{
    matches!(kind, TokenKind::CloseSquare | TokenKind::CloseRound)
}

pub(crate) fn is_prefix_or_base(kind: TokenKind) -> bool
    ensures { result ≡ is_prefix_or_base kind }
{
    matches!(kind, TokenKind::WordPrefix | TokenKind::WordBase)
}
