//! Laws of the order of values, and of counts against them, for proofs that use these: each function returns
//! nothing, and its contract is the law.
ghost use Rattle.std.specs.Prelude.{◌≡◌, ◌≢◌, ◌↔◌, ◌⊎◌, ◌&&◌, ℕ, true, false, nat_lt, Some, is_some, IsTrue};
ghost use Rattle.std.specs.declared.cmp.Ordering.TheVariants.{Equal};
ghost use Rattle.shx_term.specs.declared.term.Term.TheVariants.{Lit};
ghost use Rattle.value_space.specs.declared.value.Value.TheVariants.{Num};
ghost use Rattle.value_space.specs.Values.{value_of};
ghost use Rattle.value_space.specs.Comparison.{less_of, less_eq_of, order_of};
ghost use Rattle.value_space.specs.Compared.{is_less_term};
ghost use Rattle.value_space.specs.Counts.{is_fewer, is_more};
ghost use Rattle.value_space.specs.Laws.{IsNumber, IsExactlyOne};

use shx_term::{Literal, Term};

/// No value is less than itself.
pub fn less_is_irreflexive(a: &Literal)
    ensures { less_of a.now a.now ≢ Some true }
{}

/// What is less than something less is less, also where some have a zone and some have none.
pub fn less_is_transitive(a: &Literal, b: &Literal, c: &Literal)
    ensures { less_of a.now b.now ≡ Some true → less_of b.now c.now ≡ Some true
        → less_of a.now c.now ≡ Some true }
{}

/// `less_eq` answers where `less` does, and is true exactly where `less` is or the values are equal.
pub fn less_eq_is_less_or_equal(a: &Literal, b: &Literal)
    ensures answers { is_some (less_eq_of a.now b.now) ≡ is_some (less_of a.now b.now) }
    ensures holds { (less_eq_of a.now b.now ≡ Some true)
        ↔ ((less_of a.now b.now ≡ Some true) ⊎ (order_of a.now b.now ≡ Some Equal)) }
{}

/// Two numbers are comparable: one is less than the other, or they are equal.
pub fn numbers_are_ordered(a: &Literal, b: &Literal)
    ensures comparable { IsNumber (value_of a.now) → IsNumber (value_of b.now)
        → IsTrue (is_some (less_of a.now b.now)) }
    ensures total { IsNumber (value_of a.now) → IsNumber (value_of b.now)
        → IsExactlyOne
        (less_of a.now b.now ≡ Some true)
        (order_of a.now b.now ≡ Some Equal)
        (less_of b.now a.now ≡ Some true) }
{}

/// A count compares with a bound as a literal does that has it for its value.
pub fn counts_compare_as_literals(count: usize, integer: &Literal, bound: &Term)
    ensures fewer { value_of integer.now ≡ Num false count 0
        → is_fewer count bound.now ≡ is_less_term (Lit integer.now) bound.now }
    ensures more { value_of integer.now ≡ Num false count 0
        → is_more count bound.now ≡ is_less_term bound.now (Lit integer.now) }
{}

/// A count compares with a literal of a whole number as the two numbers do.
pub fn counts_compare_with_whole_numbers(count: usize, bound: &Literal)
    ensures fewer { (n : ℕ) → value_of bound.now ≡ Num false n 0
        → is_fewer count (Lit bound.now) ≡ nat_lt count n }
    ensures more { (n : ℕ) → value_of bound.now ≡ Num false n 0
        → is_more count (Lit bound.now) ≡ nat_lt n count }
{}

/// No count is both fewer than a bound and more.
pub fn no_count_is_fewer_and_more(count: usize, bound: &Term)
    ensures { (is_fewer count bound.now && is_more count bound.now) ≡ false }
{}
