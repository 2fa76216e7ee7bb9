use std::marker::Model;
use theory::limits::LAST;

/// A number of ticks, at most 100,000,000: a question looks no further. In a contract it is that number.
#[derive(Clone, Copy)]
pub(crate) struct Ticks {
    count: u64,
}

impl Model for Ticks {
    ghost use Rattle.std.specs.Prelude.{ℕ, ◌≤◌};

    ghost Value = { ℕ };

    ghost view = { λ s. s.count };

    ghost inverse = { λ n. record { count = n } };

    ghost invariant = { λ s. s.count ≤ 100000000 };
}

ghost use Rattle.std.specs.Prelude.{◌≡◌, min};

impl Ticks {
    /// As many ticks as the argument says; one above 100,000,000 counts as 100,000,000.
    pub(crate) fn upto(t: u64) -> Ticks
        ensures { result ≡ min t 100000000 }
    {
        Ticks { count: t.min(LAST) }
    }

    /// The number.
    pub(crate) fn count(self) -> u64
        ensures { result ≡ self }
    {
        self.count
    }
}
