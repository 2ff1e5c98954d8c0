//! Numbers in the names of blank nodes.
ghost use Rattle.std.specs.Prelude.{◌≡◌, ℕ, ◌<◌, ◌≤◌, ◌^◌, decimal, MatchOption};

use itoa::Buffer;

/// The number of a blank node without a label that is spelled so: from 1, with no zero and no sign in front
/// of it. It takes no memory.
pub(crate) fn node_number(spelled: &str) -> Option<u32>
    ensures { MatchOption result ((n : ℕ) → n < 2 ^ 32 → 1 ≤ n → decimal n ≡ spelled.now → ⊥)
        (λ n. (1 ≤ n) × (decimal n ≡ spelled.now)) }
{
    let Ok(number) = spelled.parse::<u32>() else {
        return None;
    };
    // A number with zeros or a sign in front of it is spelled otherwise.
    if number == 0 || Buffer::new().format(number) != spelled {
        return None;
    }
    Some(number)
}
