//! The codes of faults: one table, which every crate that gives, tells or writes a fault cites.
//!
//! | codes | what is at fault |
//! |---|---|
//! | 1 to 10 | a text of Turtle |
//! | 20 to 33 | the shapes of a shapes graph |
//! | 40 to 47 | what a line of a script asks for |
//! | 50 to 58 | a line of a script, or the script |
ghost use Rattle.std.specs.Prelude.{◌≡◌, map};
ghost use Rattle.shx_term.specs.FaultCodes.{fault_codes, row_among, code_name, has_place, told_row};

/// A text is no UTF-8.
pub const NOT_UTF8: u32 = 1;
/// A statement, or a term, has a form that the grammar does not give.
pub const SYNTAX: u32 = 2;
/// The prefix of a name is not set.
pub const UNKNOWN_PREFIX: u32 = 3;
/// A reference has a character that no IRI has.
pub const BAD_IRI: u32 = 4;
/// A literal has a datatype of binary floating point.
pub const FLOAT_LITERAL: u32 = 5;
/// A literal needs more digits than values have here.
pub const WIDE_VALUE: u32 = 6;
/// Brackets are open past their limit.
pub const TOO_DEEP: u32 = 7;
/// A text states more triples than the limit.
pub const TEXT_TRIPLES: u32 = 8;
/// A text states more terms than there is room for.
pub const TEXT_TERMS: u32 = 9;
/// A text has more bytes than the limit.
pub const TEXT_TOO_LONG: u32 = 10;
/// A value of a parameter that expects lists is no SHACL list.
pub const BAD_LIST: u32 = 20;
/// A predicate that takes one value has a second.
pub const TOO_MANY_VALUES: u32 = 21;
/// A value, or a member of a list, is of another kind than the predicate takes.
pub const WRONG_KIND: u32 = 22;
/// A node shape has what only property shapes have.
pub const NOT_ON_NODE_SHAPE: u32 = 23;
/// A value of sh:path is no path.
pub const BAD_PATH: u32 = 24;
/// A value of sh:property has no sh:path.
pub const NOT_A_PROPERTY_SHAPE: u32 = 25;
/// What has to be a node shape has sh:path.
pub const NOT_A_NODE_SHAPE: u32 = 26;
/// A value of sh:flags has a character that is no flag.
pub const BAD_FLAGS: u32 = 27;
/// There are more shapes than the limit.
pub const TOO_MANY_SHAPES: u32 = 28;
/// A path nests deeper, or has more parts, than the limits allow.
pub const PATH_TOO_DEEP: u32 = 29;
/// A shape refers to itself, by whatever way.
pub const RECURSIVE: u32 = 30;
/// A value of sh:pattern is no regular expression.
pub const BAD_PATTERN: u32 = 31;
/// The pattern host failed at a regular expression.
pub const PATTERN_REFUSED: u32 = 32;
/// Shapes refer to one another through more levels than the limit.
pub const REFERENCES_TOO_DEEP: u32 = 33;
/// The graph would hold more triples than the limit.
pub const GRAPH_TRIPLES: u32 = 40;
/// The pool would hold more terms than the limit.
pub const GRAPH_TERMS: u32 = 41;
/// A group of edits is open.
pub const GROUP_OPEN: u32 = 42;
/// No group of edits is open.
pub const NO_GROUP: u32 = 43;
/// A group has as many edits as the limit.
pub const GROUP_TOO_LONG: u32 = 44;
/// A shape is not evaluated at a node.
pub const NO_PAIR: u32 = 45;
/// No change is left to be undone.
pub const NOTHING_TO_UNDO: u32 = 46;
/// No change is left to be redone.
pub const NOTHING_TO_REDO: u32 = 47;
/// A line of a script has more bytes than the limit.
pub const LINE_TOO_LONG: u32 = 50;
/// A line is no UTF-8.
pub const LINE_NOT_UTF8: u32 = 51;
/// A line has no form that a line may have.
pub const LINE_SYNTAX: u32 = 52;
/// The prefix of a name in a line is not set.
pub const LINE_PREFIX: u32 = 53;
/// A reference in a line has a character that no IRI has.
pub const LINE_IRI: u32 = 54;
/// A literal in a line has a datatype of binary floating point.
pub const LINE_FLOAT: u32 = 55;
/// A literal in a line needs more digits than values have here.
pub const LINE_WIDE: u32 = 56;
/// No blank node is printed so.
pub const UNKNOWN_BLANK: u32 = 57;
/// A script has more bytes than the limit.
pub const SCRIPT_TOO_LONG: u32 = 58;

/// What is told of a fault beside what is at fault.
#[derive(Clone, Copy, Debug, PartialEq, Eq)]
pub struct FaultCode {
    pub code: u32,
    pub name: &'static str,
    /// Whether a fault with the code stands at a byte: of the text, or of the line.
    pub has_place: bool,
}

const FAULT_CODES: [FaultCode; 41] = [
    FaultCode {
        code: NOT_UTF8,
        name: "NotUtf8",
        has_place: true,
    },
    FaultCode {
        code: SYNTAX,
        name: "Syntax",
        has_place: true,
    },
    FaultCode {
        code: UNKNOWN_PREFIX,
        name: "UnknownPrefix",
        has_place: true,
    },
    FaultCode {
        code: BAD_IRI,
        name: "BadIri",
        has_place: true,
    },
    FaultCode {
        code: FLOAT_LITERAL,
        name: "FloatLiteral",
        has_place: true,
    },
    FaultCode {
        code: WIDE_VALUE,
        name: "WideValue",
        has_place: true,
    },
    FaultCode {
        code: TOO_DEEP,
        name: "TooDeep",
        has_place: true,
    },
    FaultCode {
        code: TEXT_TRIPLES,
        name: "TooManyTriples",
        has_place: true,
    },
    FaultCode {
        code: TEXT_TERMS,
        name: "TooManyTerms",
        has_place: true,
    },
    FaultCode {
        code: TEXT_TOO_LONG,
        name: "TextTooLong",
        has_place: false,
    },
    FaultCode {
        code: BAD_LIST,
        name: "BadList",
        has_place: false,
    },
    FaultCode {
        code: TOO_MANY_VALUES,
        name: "TooManyValues",
        has_place: false,
    },
    FaultCode {
        code: WRONG_KIND,
        name: "WrongKind",
        has_place: false,
    },
    FaultCode {
        code: NOT_ON_NODE_SHAPE,
        name: "NotOnNodeShape",
        has_place: false,
    },
    FaultCode {
        code: BAD_PATH,
        name: "BadPath",
        has_place: false,
    },
    FaultCode {
        code: NOT_A_PROPERTY_SHAPE,
        name: "NotAPropertyShape",
        has_place: false,
    },
    FaultCode {
        code: NOT_A_NODE_SHAPE,
        name: "NotANodeShape",
        has_place: false,
    },
    FaultCode {
        code: BAD_FLAGS,
        name: "BadFlags",
        has_place: false,
    },
    FaultCode {
        code: TOO_MANY_SHAPES,
        name: "TooManyShapes",
        has_place: false,
    },
    FaultCode {
        code: PATH_TOO_DEEP,
        name: "PathTooDeep",
        has_place: false,
    },
    FaultCode {
        code: RECURSIVE,
        name: "Recursive",
        has_place: false,
    },
    FaultCode {
        code: BAD_PATTERN,
        name: "BadPattern",
        has_place: false,
    },
    FaultCode {
        code: PATTERN_REFUSED,
        name: "PatternRefused",
        has_place: false,
    },
    FaultCode {
        code: REFERENCES_TOO_DEEP,
        name: "ReferencesTooDeep",
        has_place: false,
    },
    FaultCode {
        code: GRAPH_TRIPLES,
        name: "TooManyTriples",
        has_place: false,
    },
    FaultCode {
        code: GRAPH_TERMS,
        name: "TooManyTerms",
        has_place: false,
    },
    FaultCode {
        code: GROUP_OPEN,
        name: "GroupOpen",
        has_place: false,
    },
    FaultCode {
        code: NO_GROUP,
        name: "NoGroup",
        has_place: false,
    },
    FaultCode {
        code: GROUP_TOO_LONG,
        name: "GroupTooLong",
        has_place: false,
    },
    FaultCode {
        code: NO_PAIR,
        name: "NoPair",
        has_place: false,
    },
    FaultCode {
        code: NOTHING_TO_UNDO,
        name: "NothingToUndo",
        has_place: false,
    },
    FaultCode {
        code: NOTHING_TO_REDO,
        name: "NothingToRedo",
        has_place: false,
    },
    FaultCode {
        code: LINE_TOO_LONG,
        name: "LineTooLong",
        has_place: false,
    },
    FaultCode {
        code: LINE_NOT_UTF8,
        name: "LineNotUtf8",
        has_place: false,
    },
    FaultCode {
        code: LINE_SYNTAX,
        name: "LineSyntax",
        has_place: false,
    },
    FaultCode {
        code: LINE_PREFIX,
        name: "UnknownPrefix",
        has_place: true,
    },
    FaultCode {
        code: LINE_IRI,
        name: "BadIri",
        has_place: true,
    },
    FaultCode {
        code: LINE_FLOAT,
        name: "FloatLiteral",
        has_place: true,
    },
    FaultCode {
        code: LINE_WIDE,
        name: "WideValue",
        has_place: true,
    },
    FaultCode {
        code: UNKNOWN_BLANK,
        name: "UnknownBlank",
        has_place: true,
    },
    FaultCode {
        code: SCRIPT_TOO_LONG,
        name: "ScriptTooLong",
        has_place: false,
    },
];

/// The table, in the order of the codes.
#[tactic(auto, unfolding(crate::specs::FaultCodes::fault_codes))]
pub fn fault_codes() -> &'static [FaultCode]
    ensures { map told_row result.now ≡ fault_codes }
{
    &FAULT_CODES
}

/// The name of a code, empty where the code is in no row.
pub fn code_name(code: u32) -> &'static str
    ensures { result.now ≡ code_name code }
{
    row_among(fault_codes(), code).name
}

/// Whether a fault with this code stands at a byte; not so where the code is in no row.
pub fn has_place(code: u32) -> bool
    ensures { result ≡ has_place code }
{
    row_among(fault_codes(), code).has_place
}

// The first row of a code, or one without a name.
fn row_among(rows: &[FaultCode], code: u32) -> FaultCode
    ensures { told_row result ≡ row_among (map told_row rows.now) code }
{
    for row in rows {
        if row.code == code {
            return *row;
        }
    }
    FaultCode {
        code,
        name: "",
        has_place: false,
    }
}
