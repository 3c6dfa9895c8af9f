//! Whether a process is clogged, which the network and its messages ask.
ghost use Rattle.std.specs.Prelude.{◌≡◌, nat_lt, slice_index};

use fy_locality::ProcId;

/// Whether a clog of a process lasts beyond a time.
pub(crate) fn clog_lasts(until: &[u64], now: u64, p: ProcId) -> bool
    ensures { result ≡ nat_lt now (slice_index until.now p.0) }
{
    match until.get(p.0 as usize) {
        Some(end) => now < *end,
        None => false,
    }
}
