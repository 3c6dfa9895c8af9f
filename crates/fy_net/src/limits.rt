//! The limits of a network.

/// How many messages may be in flight.
pub const MOST_IN_FLIGHT: usize = 65_536;

/// The last tick of the clock: 2^40.
pub const LAST_TICK: u64 = 1_099_511_627_776;
