//! Tables that are sorted by key.
ghost use Rattle.std.specs.Prelude.{◌≡◌, ◌≤◌, nat_lt, nat_le, length};
ghost use Rattle.std.specs.List.{prefix_len};
ghost use Rattle.std.specs.List.Sorted.{IsNonDecreasingBy};

/// How many keys of a column stand before a key.
fn count_before(keys: &[u32], key: u32) -> usize
    requires { IsNonDecreasingBy (λ x. x) keys.now }
    ensures { result ≡ prefix_len (λ x. nat_lt x key) keys.now }
{
    keys.partition_point(|other| *other < key)
}

/// How many keys of a column stand before a key or are that key.
fn count_up_to(keys: &[u32], key: u32) -> usize
    requires { IsNonDecreasingBy (λ x. x) keys.now }
    ensures { result ≡ prefix_len (λ x. nat_le x key) keys.now }
{
    keys.partition_point(|other| *other <= key)
}

/// Where the lines of a key begin in a table, and where they end, by its column of keys.
pub(crate) fn range_of(keys: &[u32], key: u32) -> (usize, usize)
    requires { IsNonDecreasingBy (λ x. x) keys.now }
    ensures start { result.0 ≡ prefix_len (λ x. nat_lt x key) keys.now }
    ensures end { result.1 ≡ prefix_len (λ x. nat_le x key) keys.now }
    ensures order { result.0 ≤ result.1 }
    ensures within { result.1 ≤ length keys.now }
{
    (count_before(keys, key), count_up_to(keys, key))
}
