ghost use Rattle.std.specs.Prelude.{◌≡◌};
ghost use Rattle.shx_outside.specs.Counted.{next_count};
ghost use Rattle.shx_outside.specs.Failing.{is_listed};

/// Counts one more, up to the last value.
pub(crate) fn count_up(count: &mut u64)
    ensures { count.new ≡ next_count count.old }
{
    *count = count.saturating_add(1);
}

/// Counts a call, and answers whether its number is among those that fail.
pub(crate) fn next_call_fails(failing: &[u64], calls: &mut u64) -> bool
    ensures fails { result ≡ is_listed failing.now (next_count calls.old) }
    ensures calls { calls.new ≡ next_count calls.old }
{
    count_up(calls);
    failing.contains(calls)
}
