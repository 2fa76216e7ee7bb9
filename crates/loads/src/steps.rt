ghost use Rattle.std.specs.Prelude.{◌≡◌, ℕ, ◌<◌, ◌≤◌, length, slice_index};

use theory::limits::CUT;
use theory::rows::ROW;

/// What grows in steps, over a row of ticks: by how much at each tick of the row, the first one with what it has
/// grown to by then, each cut at 2^40, which is 1,099,511,627,776; and the last place at which it may grow.
#[derive(Drop)]
pub(crate) struct Steps {
    added: [u64; ROW],
    last: usize,
    ghost full: { length added ≡ 256 },
    ghost cut: { (i : ℕ) → slice_index added i ≤ 1099511627776 },
    ghost inside: { last < 256 },
    ghost flat: { (i : ℕ) → last < i → slice_index added i ≡ 0 },
}

pub(crate) mod repeat;
pub(crate) mod tops;

impl Steps {
    ghost use Rattle.std.specs.Prelude.{◌+◌, ◌*◌, ◌^◌, min, map};
    ghost use Rattle.std.specs.List.{range_with_len};
    ghost use Rattle.loads.specs.Train.{upto};
    ghost use Rattle.loads.specs.Steps.{reached};

    /// What has grown to `base` by the first tick, and then no more.
    pub(crate) fn new(base: u64) -> Steps
        ensures { (i : ℕ) → i < 256 → reached result.added i ≡ min base 1099511627776 }
    {
        let mut added = [0; ROW];
        added[0] = base.min(CUT);
        Steps { added, last: 0 }
    }

    /// Adds `cost` at each of the ticks `first`, `first + period`, ..: those up to the row's first tick `from` at place 0,
    /// the others at their places; nothing from place `until` on.
    pub(crate) fn add(&mut self, from: u64, first: u64, period: u64, cost: u64, until: usize)
        requires near { from ≤ 200000000 }
        requires soon { first ≤ 4294967295 }
        requires turns { 1 ≤ period }
        requires short { period ≤ 160000000 }
        requires small { cost ≤ 10000000 }
        requires places { until ≤ 256 }
        ensures { (i : ℕ) → i < until → min (reached self.new.added i) 1099511627776 ≡ min (reached self.old.added i + cost * upto period (from + i) first) 1099511627776 }
    {
        let before = from.saturating_sub(first).div_ceil(period);
        self.added[0] = (self.added[0] + cost * before).min(CUT);
        let mut at = first + before * period - from;
        while at < until as u64 {
            self.last = self.last.max(at as usize);
            self.added[at as usize] = (self.added[at as usize] + cost).min(CUT);
            at += period;
        }
    }

    /// What it has grown to at each tick of the row, cut at 2^40.
    pub(crate) fn row(&self) -> [u64; ROW]
        ensures { result ≡ map (λ i. min (reached self.now.added i) (2 ^ 40)) (range_with_len 0 256) }
    {
        let mut row = [0; ROW];
        let mut sum: u64 = 0;
        for (i, added) in self.added.iter().enumerate() {
            sum += *added;
            row[i] = sum.min(CUT);
        }
        row
    }
}
