ghost use Rattle.std.specs.Prelude.{◌≡◌, ◌≢◌, ◌<◌, ◌^◌, ℕ, decimal, IfSome, IfNone};
ghost use Rattle.shacl_drill.specs.Size.{AskFor, AskForNone};

use itoa::Buffer;
use shx_term::Text;

const MOST_NODES: u64 = 100_000;

/// How many nodes the words ask for, from 1 to 100000.
pub fn size_of(words: &[Text]) -> Option<u64>
    ensures some { IfSome result (AskFor words.now) }
    ensures none { IfNone result (AskForNone words.now) }
{
    let [word] = words else {
        return None;
    };
    let size = decimal_number(word.as_str())?;
    if size < 1 || size > MOST_NODES {
        return None;
    }
    Some(size)
}

/// The number that a text writes in decimal digits, without leading zeros.
pub fn decimal_number(text: &str) -> Option<u64>
    ensures some { IfSome result (λ n. text.now ≡ decimal n) }
    ensures none { IfNone result ((n : ℕ) → n < 2 ^ 64 → text.now ≢ decimal n) }
    ensures fits { IfSome result (λ n. n < 2 ^ 64) }
{
    match text.parse::<u64>() {
        Ok(number) => {
            if Buffer::new().format(number) == text {
                Some(number)
            } else {
                None
            }
        }
        Err(_) => None,
    }
}
