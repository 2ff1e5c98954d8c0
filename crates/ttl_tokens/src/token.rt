/// What a token is: a terminal of Turtle, or the end of the text.
#[derive(Clone, Copy, Debug, PartialEq, Eq)]
pub enum TokenKind {
    /// `IRIREF`
    IriRef,
    /// `PNAME_NS`: a prefix and its colon
    PnameNs,
    /// `PNAME_LN`: a prefix, its colon and a local name
    PnameLn,
    /// `BLANK_NODE_LABEL`
    BlankLabel,
    /// `LANGTAG`, also `@prefix` and `@base`
    LangTag,
    Integer,
    Decimal,
    Double,
    /// `STRING_LITERAL_QUOTE`
    StringQuote,
    /// `STRING_LITERAL_SINGLE_QUOTE`
    StringSingleQuote,
    /// `STRING_LITERAL_LONG_SINGLE_QUOTE`
    StringLongSingleQuote,
    /// `STRING_LITERAL_LONG_QUOTE`
    StringLongQuote,
    /// `ANON`: square brackets with only white space and comments between them
    Anon,
    /// `a`
    WordA,
    /// `true`
    WordTrue,
    /// `false`
    WordFalse,
    /// `PREFIX`, in any case
    WordPrefix,
    /// `BASE`, in any case
    WordBase,
    /// `^^`
    Carets,
    Dot,
    Semicolon,
    Comma,
    OpenSquare,
    CloseSquare,
    OpenRound,
    CloseRound,
    /// the end of the text
    End,
}

/// A token of a text, from byte `start` up to byte `end`.
#[derive(Clone, Copy, Debug, PartialEq, Eq)]
pub struct Token {
    pub kind: TokenKind,
    pub start: usize,
    pub end: usize,
}

/// Where something other than white space and comments stands and no terminal begins.
#[derive(Clone, Copy, Debug, PartialEq, Eq)]
pub struct NoToken {
    pub at: usize,
}
