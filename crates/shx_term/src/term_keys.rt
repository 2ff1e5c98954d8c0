ghost use Rattle.std.specs.Prelude.{◌≡◌, IfOk};
ghost use Rattle.shx_term.specs.inner.TermKeys.{first_hasher, keyed, IsDrawn};

use std::hash::{BuildHasher, FoldHasher, Hasher};
use std::io;
use std::random::RandomSource;

/// A keyed hash of terms: what makes the hashers of a pool, each of which has read the key. A text may not
/// choose the keys of a hash: with a key that is drawn, its writer cannot tell which terms fall together.
#[derive(Clone, Copy)]
pub struct TermKeys {
    first: FoldHasher,
}

impl TermKeys {
    /// The hash under a key that is given, as by a test. It takes no memory.
    pub fn of(key: [u8; 16]) -> TermKeys
        ensures { first_hasher result ≡ keyed key }
    {
        let mut first = FoldHasher::default();
        first.write(&key);
        TermKeys { first }
    }

    /// The hash under 16 random bytes of the system; its error where it has none to give. It takes no memory.
    pub fn drawn(rt: &impl RandomSource) -> io::Result<TermKeys>
        ensures { IfOk result IsDrawn }
    {
        let mut key = [0; 16];
        rt.fill_bytes(&mut key)?;
        Ok(TermKeys::of(key))
    }
}

impl BuildHasher for TermKeys {
    type Hasher = FoldHasher;

    ghost use Rattle.shx_term.specs.inner.TermKeys.{first_hasher};

    ghost build_hasher = { first_hasher };

    fn build_hasher(&self) -> FoldHasher {
        self.first
    }
}
