/// The last tick at which a question is asked: a later one counts as it.
pub const LAST: u64 = 100_000_000;

/// The largest amount that a question answers: a larger one is answered as it.
pub const CUT: u64 = 1 << 40;
