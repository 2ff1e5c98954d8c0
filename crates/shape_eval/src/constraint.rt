ghost use Rattle.std.specs.Prelude.{◌≡◌};
ghost use Rattle.shape_eval.specs.Constraint.{kind_of, parameter_of};

use comp_core::Kind;
use comp_core::kinds::*;
use logic_components::{And, Node, Not, Or, Property, Xone};
use pair_components::{Disjoint, Equals, LessThan, LessThanOrEquals};
use qualified_shapes::{Closed, QualifiedMaxCount, QualifiedMinCount};
use shx_term::Id;
use value_components::{
    Class, Datatype, HasValue, In, LanguageIn, MaxCount, MaxExclusive, MaxInclusive, MaxLength,
    MinCount, MinExclusive, MinInclusive, MinLength, NodeKind, Pattern, UniqueLang,
};

/// A constraint of a shape: one of the components of SHACL Core with its parameters (SHACL, section 4).
pub enum Constraint {
    Class(Class),
    Datatype(Datatype),
    NodeKind(NodeKind),
    MinCount(MinCount),
    MaxCount(MaxCount),
    MinExclusive(MinExclusive),
    MinInclusive(MinInclusive),
    MaxExclusive(MaxExclusive),
    MaxInclusive(MaxInclusive),
    MinLength(MinLength),
    MaxLength(MaxLength),
    Pattern(Pattern),
    LanguageIn(LanguageIn),
    UniqueLang(UniqueLang),
    Equals(Equals),
    Disjoint(Disjoint),
    LessThan(LessThan),
    LessThanOrEquals(LessThanOrEquals),
    Not(Not),
    And(And),
    Or(Or),
    Xone(Xone),
    Node(Node),
    Property(Property),
    QualifiedMinCount(QualifiedMinCount),
    QualifiedMaxCount(QualifiedMaxCount),
    Closed(Closed),
    HasValue(HasValue),
    In(In),
}

impl Drop for Constraint {
    fn drop(self) {
        match self {
            Constraint::Class(_c) => {}
            Constraint::Datatype(_c) => {}
            Constraint::NodeKind(_c) => {}
            Constraint::MinCount(_c) => {}
            Constraint::MaxCount(_c) => {}
            Constraint::MinExclusive(_c) => {}
            Constraint::MinInclusive(_c) => {}
            Constraint::MaxExclusive(_c) => {}
            Constraint::MaxInclusive(_c) => {}
            Constraint::MinLength(_c) => {}
            Constraint::MaxLength(_c) => {}
            Constraint::Pattern(_c) => {}
            Constraint::LanguageIn(_c) => {}
            Constraint::UniqueLang(_c) => {}
            Constraint::Equals(_c) => {}
            Constraint::Disjoint(_c) => {}
            Constraint::LessThan(_c) => {}
            Constraint::LessThanOrEquals(_c) => {}
            Constraint::Not(_c) => {}
            Constraint::And(_c) => {}
            Constraint::Or(_c) => {}
            Constraint::Xone(_c) => {}
            Constraint::Node(_c) => {}
            Constraint::Property(_c) => {}
            Constraint::QualifiedMinCount(_c) => {}
            Constraint::QualifiedMaxCount(_c) => {}
            Constraint::Closed(_c) => {}
            Constraint::HasValue(_c) => {}
            Constraint::In(_c) => {}
        }
    }
}

impl Constraint {
    /// The number of its component.
    pub fn kind(&self) -> Kind
        ensures { result ≡ kind_of self.now }
    {
        match self {
            Constraint::Class(_) => CLASS,
            Constraint::Datatype(_) => DATATYPE,
            Constraint::NodeKind(_) => NODE_KIND,
            Constraint::MinCount(_) => MIN_COUNT,
            Constraint::MaxCount(_) => MAX_COUNT,
            Constraint::MinExclusive(_) => MIN_EXCLUSIVE,
            Constraint::MinInclusive(_) => MIN_INCLUSIVE,
            Constraint::MaxExclusive(_) => MAX_EXCLUSIVE,
            Constraint::MaxInclusive(_) => MAX_INCLUSIVE,
            Constraint::MinLength(_) => MIN_LENGTH,
            Constraint::MaxLength(_) => MAX_LENGTH,
            Constraint::Pattern(_) => PATTERN,
            Constraint::LanguageIn(_) => LANGUAGE_IN,
            Constraint::UniqueLang(_) => UNIQUE_LANG,
            Constraint::Equals(_) => EQUALS,
            Constraint::Disjoint(_) => DISJOINT,
            Constraint::LessThan(_) => LESS_THAN,
            Constraint::LessThanOrEquals(_) => LESS_THAN_OR_EQUALS,
            Constraint::Not(_) => NOT,
            Constraint::And(_) => AND,
            Constraint::Or(_) => OR,
            Constraint::Xone(_) => XONE,
            Constraint::Node(_) => NODE,
            Constraint::Property(_) => PROPERTY,
            Constraint::QualifiedMinCount(_) => QUALIFIED_MIN_COUNT,
            Constraint::QualifiedMaxCount(_) => QUALIFIED_MAX_COUNT,
            Constraint::Closed(_) => CLOSED,
            Constraint::HasValue(_) => HAS_VALUE,
            Constraint::In(_) => IN,
        }
    }

    /// The value of its parameter: of a list the head, of a qualified shape the count.
    pub fn parameter(&self) -> Id
        ensures { result ≡ parameter_of self.now }
    {
        match self {
            Constraint::Class(c) => c.value,
            Constraint::Datatype(c) => c.value,
            Constraint::NodeKind(c) => c.value,
            Constraint::MinCount(c) => c.value,
            Constraint::MaxCount(c) => c.value,
            Constraint::MinExclusive(c) => c.value,
            Constraint::MinInclusive(c) => c.value,
            Constraint::MaxExclusive(c) => c.value,
            Constraint::MaxInclusive(c) => c.value,
            Constraint::MinLength(c) => c.value,
            Constraint::MaxLength(c) => c.value,
            Constraint::Pattern(c) => c.value,
            Constraint::LanguageIn(c) => c.value,
            Constraint::UniqueLang(c) => c.value,
            Constraint::Equals(c) => c.value,
            Constraint::Disjoint(c) => c.value,
            Constraint::LessThan(c) => c.value,
            Constraint::LessThanOrEquals(c) => c.value,
            Constraint::Not(c) => c.value,
            Constraint::And(c) => c.value,
            Constraint::Or(c) => c.value,
            Constraint::Xone(c) => c.value,
            Constraint::Node(c) => c.value,
            Constraint::Property(c) => c.value,
            Constraint::QualifiedMinCount(c) => c.value,
            Constraint::QualifiedMaxCount(c) => c.value,
            Constraint::Closed(c) => c.value,
            Constraint::HasValue(c) => c.value,
            Constraint::In(c) => c.value,
        }
    }
}
