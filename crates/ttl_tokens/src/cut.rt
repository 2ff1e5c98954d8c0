ghost use Rattle.std.specs.Prelude.{◌≡◌, ◌≢◌, ◌<◌, ◌∷◌, ◌++◌, All, MatchOption};

/// What stands before the first such byte, a character of ASCII, and what stands behind it, or `None` where
/// there is none. It looks at each byte up to there once.
pub fn cut_at(text: &str, byte: u8) -> Option<(&str, &str)>
    requires { byte < 128 }
    ensures { MatchOption result (All (λ b. b ≢ byte) text.now) (λ parts.
        (text.now ≡ parts.0.now ++ byte ∷ parts.1.now) × All (λ b. b ≢ byte) parts.0.now) }
{
    for (at, b) in text.as_bytes().iter().enumerate() {
        if *b == byte {
            return Some((&text[..at], &text[at + 1..]));
        }
    }
    None
}
