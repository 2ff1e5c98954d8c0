use super::{holds, key};
use row_tools::{RowFault, term};
use shx_term::{Pool, TermKeys};
use std::alloc::Global;
use std::hash::BuildHasher;
use std::io;
use std::io::ErrorKind;
use std::random::RandomSource;
use std::test::Fail;

// Gives this byte alone.
struct Always(u8);

impl RandomSource for Always {
    fn fill_bytes(&self, buf: &mut [u8]) -> io::Result<()> {
        buf.fill(self.0);
        Ok(())
    }
}

// Has nothing to give.
struct Empty;

impl RandomSource for Empty {
    fn fill_bytes(&self, _buf: &mut [u8]) -> io::Result<()> {
        Err(io::Error::from(ErrorKind::Other))
    }
}

const WORDS: &str = "\
rdf:type
e:a
data:x
shapes:x
data#1
shapes#1
'x'
'x'@en
'x'^^integer";

// Whether two hashes tell each of the words apart from each other.
fn differ(alloc: Global, a: TermKeys, b: TermKeys) -> Result<bool, RowFault> {
    for word in WORDS.lines() {
        let term = term(alloc, word)?;
        if a.hash_one(&term) == b.hash_one(&term) {
            return Ok(false);
        }
    }
    Ok(true)
}

#[test]
fn a_key_moves_every_hash(rt: HostRuntime) -> Result<(), Fail> {
    let (a, b) = (TermKeys::of([1; 16]), TermKeys::of([2; 16]));
    holds(differ(rt.alloc(), a, b))
}

#[test]
fn a_key_is_drawn_from_the_system(rt: HostRuntime) -> Result<(), Fail> {
    let fives = TermKeys::drawn(&Always(5))?;
    let due = TermKeys::of([5; 16]);
    holds(Ok(fives.hash_one(7) == due.hash_one(7)))?;
    holds(differ(rt.alloc(), TermKeys::drawn(&rt)?, TermKeys::drawn(&rt)?))
}

#[test]
fn no_key_is_made_up() -> Result<(), Fail> {
    holds(Ok(TermKeys::drawn(&Empty).is_err()))
}

#[test]
fn a_pool_gives_its_keys(rt: HostRuntime) -> Result<(), Fail> {
    let pool = Pool::with_vocabulary(rt.alloc(), 62, key())?;
    holds(Ok(pool.keys().hash_one(7) == key().hash_one(7)))
}
