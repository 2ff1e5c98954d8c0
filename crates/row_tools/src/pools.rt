//! Pools of tests.
ghost use Rattle.std.specs.Prelude.{◌≡◌, ◌≤◌, IfOk};
ghost use Rattle.shx_term.specs.Vocabulary.{vocabulary};

use shx_term::{Memory, Pool, TermKeys};
use std::alloc::Global;

/// A pool that holds the vocabulary, and at most `limit` terms in all. Its key is the same each time.
pub fn vocabulary_pool(alloc: Global, limit: u32) -> Result<Pool, Memory>
    requires { 62 ≤ limit }
    ensures terms { IfOk result (λ pool. pool.terms ≡ vocabulary) }
    ensures limit { IfOk result (λ pool. pool.limit ≡ limit) }
{
    Pool::with_vocabulary(alloc, limit, TermKeys::of([0; 16]))
}
