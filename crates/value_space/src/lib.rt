//! The values of literals and their comparison (XML Schema 1.1 part 2; SPARQL 1.1, section 17).
//!
//! | file | what it holds |
//! |---|---|
//! | `value.rt` | `Value`: what a literal stands for |
//! | `values.rt` | `value_of`, `wide`, `is_float`, `matches_datatype` |
//! | `read_literal.rt` | `ReadLiteral`: a literal that is read once and compared with many |
//! | `comparison.rt` | `less` and `less_eq` of two literals; `is_less` and `is_less_eq` of two terms |
//! | `read_values.rt` | `value_read`, `value_at`: what is read of a term before others are compared with it |
//! | `count.rt` | `is_fewer` and `is_more`: a count against the number of a literal |
//! | `order.rt` | the order of values, where they have one |
//! | `laws.rt` | the laws of that order, and of counts |
//! | `datatype.rt` | the table of datatypes |
//! | `numeral.rt`, `number.rt` | the form of a number, read in one walk, and its value |
//! | `moment_text.rt`, `zone.rt`, `moment.rt` | moments and days: their forms, read in one walk, and values |
//! | `digits.rt` | signs and digits, which these forms are made of |
//!
//! It stands on `shx_term`, and on `jiff` for the numbers of days. Start with `value.rt`; `specs/Values.antt`
//! says which value a literal has, `specs/Comparison.antt` when one is less than another,
//! `specs/Compared.antt` and `specs/Counts.antt` the same of terms and of counts, and
//! `specs/ReadValues.antt` what is read of a term.
#![tactic(auto)]

mod comparison;
mod count;
mod datatype;
mod digits;
mod laws;
mod moment;
mod moment_text;
mod number;
mod numeral;
mod order;
mod read_literal;
mod read_values;
mod value;
mod values;
mod zone;

pub use comparison::{is_less, is_less_eq, less, less_eq};
pub use count::{is_fewer, is_fewer_read, is_more, is_more_read};
pub use laws::{
    counts_compare_as_literals, counts_compare_with_whole_numbers, less_eq_is_less_or_equal,
    less_is_irreflexive, less_is_transitive, no_count_is_fewer_and_more, numbers_are_ordered,
};
pub use read_literal::ReadLiteral;
pub use read_values::{value_at, value_read};
pub use value::Value;
pub use values::{is_float, matches_datatype, value_of, wide};
