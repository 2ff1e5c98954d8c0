//! Literals that were read before they are compared.
ghost use Rattle.std.specs.Prelude.{◌≡◌, false};
ghost use Rattle.shx_term.specs.ValidTriples.{IsNotWide};
ghost use Rattle.shx_term.specs.WideLiterals.{is_wide};
ghost use Rattle.value_space.specs.ReadValues.{value_read};
ghost use Rattle.value_space.specs.inner.Canonical.{IsCanonical, IsCanonical-prop};

use crate::Value;
use crate::order::order_of_values;
use crate::values::value_of;
use shx_term::{Literal, Term};
use std::cmp::Ordering;

/// A literal that was read: its value, and its lexical form, by which texts are compared. A literal that is
/// compared with many others is read once. The form is borrowed, so that no call takes memory.
#[derive(Clone, Copy, Debug)]
pub struct ReadLiteral<'a> {
    value: Value,
    ghost canonical: { IsCanonical value } by { IsCanonical-prop value },

    text: &'a str,
}

impl<'a> ReadLiteral<'a> {
    ghost use Rattle.std.specs.Prelude.{[]};
    ghost use Rattle.value_space.specs.declared.value.Value.TheVariants.{Num};
    ghost use Rattle.value_space.specs.Compared.{compared_by, compared_literal, compared_read, read_as};
    ghost use Rattle.value_space.specs.Compared.{less_compared, less_eq_compared};
    ghost use Rattle.value_space.specs.Comparison.{order_of_values};

    /// Reads a literal, in time linear in its lexical form.
    pub fn of(literal: &'a Literal) -> ReadLiteral<'a>
        requires { is_wide literal.now ≡ false }
        ensures { compared_read result ≡ compared_literal literal.now }
    {
        ReadLiteral {
            value: value_of(literal),
            text: literal.lexical.as_str(),
        }
    }

    /// Reads a term, in time linear in its lexical form; nothing where it is no literal.
    pub fn of_term(term: &'a Term) -> Option<ReadLiteral<'a>>
        requires { IsNotWide term.now }
        ensures { read_as result ≡ compared_by term.now }
    {
        match term {
            Term::Lit(literal) => Some(ReadLiteral::of(literal)),
            _ => None,
        }
    }

    /// A term whose value was read before, in constant time; nothing where it is no literal.
    pub fn again(term: &'a Term, value: Option<Value>) -> Option<ReadLiteral<'a>>
        requires narrow { IsNotWide term.now }
        requires value { value ≡ value_read term.now }
        ensures { read_as result ≡ compared_by term.now }
    {
        match (term, value) {
            (Term::Lit(literal), Some(value)) => Some(ReadLiteral {
                value,
                text: literal.lexical.as_str(),
            }),
            _ => None,
        }
    }

    /// The value that was read.
    pub fn value(&self) -> Value
        ensures { result ≡ (compared_read self.now).value }
    {
        self.value
    }

    /// Whether a value is less than another; `None` where the two are incomparable. Two texts take time
    /// linear in the shorter one, and all else constant time.
    pub fn less(&self, other: &ReadLiteral) -> Option<bool>
        ensures { result ≡ less_compared (compared_read self.now) (compared_read other.now) }
    {
        match self.order(other) {
            Some(order) => Some(order == Ordering::Less),
            None => None,
        }
    }

    /// Whether a value is less than another or equal to it; `None` where the two are incomparable. It takes
    /// as long as [`less`](ReadLiteral::less).
    pub fn less_eq(&self, other: &ReadLiteral) -> Option<bool>
        ensures { result ≡ less_eq_compared (compared_read self.now) (compared_read other.now) }
    {
        match self.order(other) {
            Some(order) => Some(order != Ordering::Greater),
            None => None,
        }
    }

    fn order(&self, other: &ReadLiteral) -> Option<Ordering>
        ensures { result ≡ order_of_values self.now.text.now other.now.text.now
            self.now.value other.now.value }
    {
        order_of_values(self.text, other.text, self.value, other.value)
    }

    /// How a count compares with the value; `None` where this is no number.
    pub(crate) fn order_of_count(&self, count: usize) -> Option<Ordering>
        ensures { result ≡ order_of_values [] self.now.text.now (Num false count 0) self.now.value }
    {
        let counted = Value::Num {
            negative: false,
            whole: count as u128,
            fraction: 0,
        };
        order_of_values("", self.text, counted, self.value)
    }
}
