//! The rules of single shapes.
ghost use Rattle.std.specs.Prelude.{◌≡◌};
ghost use Rattle.shape_check.specs.Faults.{code_of, rules};

use shx_term::fault_codes::*;

/// A rule that each shape keeps, by what it forbids.
#[derive(Clone, Copy, Debug, PartialEq, Eq)]
pub enum Rule {
    /// A value of a parameter that expects lists is no SHACL list.
    BadList,
    /// A predicate that takes one value has a second.
    TooManyValues,
    /// A value, or a member of a list, is of another kind than the predicate takes.
    WrongKind,
    /// A shape without `sh:path` has what only property shapes have.
    NotOnNodeShape,
    /// The value of `sh:path` is no path.
    BadPath,
    /// A value of `sh:property` has no `sh:path`.
    NotAPropertyShape,
    /// An instance of `sh:NodeShape`, or a value of `sh:node`, has `sh:path`.
    NotANodeShape,
    /// A value of `sh:flags` has a character other than i, m, s and x.
    BadFlags,
    /// The value of `sh:path` nests deeper, or has more parts, than the limits allow.
    PathTooDeep,
}

const RULES: [Rule; 9] = [
    Rule::BadList,
    Rule::TooManyValues,
    Rule::WrongKind,
    Rule::NotOnNodeShape,
    Rule::BadPath,
    Rule::NotAPropertyShape,
    Rule::NotANodeShape,
    Rule::BadFlags,
    Rule::PathTooDeep,
];

/// The rules, in the order in which they are tried.
#[tactic(auto, unfolding(crate::specs::Faults::rules))]
pub(crate) fn rules() -> &'static [Rule]
    ensures { result.now ≡ rules }
{
    &RULES
}

impl Rule {
    /// The code by which a fault names the rule.
    pub fn code(self) -> u32
        ensures { result ≡ code_of self }
    {
        match self {
            Rule::BadList => BAD_LIST,
            Rule::TooManyValues => TOO_MANY_VALUES,
            Rule::WrongKind => WRONG_KIND,
            Rule::NotOnNodeShape => NOT_ON_NODE_SHAPE,
            Rule::BadPath => BAD_PATH,
            Rule::NotAPropertyShape => NOT_A_PROPERTY_SHAPE,
            Rule::NotANodeShape => NOT_A_NODE_SHAPE,
            Rule::BadFlags => BAD_FLAGS,
            Rule::PathTooDeep => PATH_TOO_DEEP,
        }
    }
}
