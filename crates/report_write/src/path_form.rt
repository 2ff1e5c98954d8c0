//! What is written about the parts of a path.
ghost use Rattle.std.specs.Prelude.{◌≡◌};
ghost use Rattle.report_write.specs.PathForms.{between, closing, opening};

use text_output::Format;

/// How a path is made of others (SHACL, section 2.3.1).
#[derive(Clone, Copy, Debug, PartialEq, Eq)]
pub(crate) enum PathForm {
    Sequence,
    Alternative,
    Inverse,
    ZeroOrMore,
    OneOrMore,
    ZeroOrOne,
}

/// What stands before the first part.
pub(crate) fn opening(format: Format, form: PathForm) -> &'static str
    ensures { result.now ≡ opening format form }
{
    match (format, form) {
        (Format::Lines, PathForm::Inverse) => "(^",
        (Format::Lines, _) => "(",
        (Format::Turtle, PathForm::Sequence) => "( ",
        (Format::Turtle, PathForm::Alternative) => "[ sh:alternativePath ( ",
        (Format::Turtle, PathForm::Inverse) => "[ sh:inversePath ",
        (Format::Turtle, PathForm::ZeroOrMore) => "[ sh:zeroOrMorePath ",
        (Format::Turtle, PathForm::OneOrMore) => "[ sh:oneOrMorePath ",
        (Format::Turtle, PathForm::ZeroOrOne) => "[ sh:zeroOrOnePath ",
    }
}

/// What stands between two parts.
pub(crate) fn between(format: Format, form: PathForm) -> &'static str
    ensures { result.now ≡ between format form }
{
    match (format, form) {
        (Format::Lines, PathForm::Sequence) => "/",
        (Format::Lines, _) => "|",
        (Format::Turtle, _) => " ",
    }
}

/// What stands behind the last part.
pub(crate) fn closing(format: Format, form: PathForm) -> &'static str
    ensures { result.now ≡ closing format form }
{
    match (format, form) {
        (Format::Lines, PathForm::ZeroOrMore) => "*)",
        (Format::Lines, PathForm::OneOrMore) => "+)",
        (Format::Lines, PathForm::ZeroOrOne) => "?)",
        (Format::Lines, _) => ")",
        (Format::Turtle, PathForm::Sequence) => " )",
        (Format::Turtle, PathForm::Alternative) => " ) ]",
        (Format::Turtle, _) => " ]",
    }
}
