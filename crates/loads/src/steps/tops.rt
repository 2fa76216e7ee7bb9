ghost use Rattle.std.specs.Prelude.{◌≡◌, length};

use super::Steps;
use theory::limits::CUT;
use theory::rows::ROW;

/// The largest of several that grow in steps, over a row of ticks: at each tick it is the largest of the numbers up to
/// there. None of the several ever falls, so each is looked at up to its last step only.
#[derive(Drop)]
pub(crate) struct Tops {
    at: [u64; ROW],
    ghost full: { length at ≡ 256 },
}

impl Tops {
    ghost use Rattle.std.specs.Prelude.{ℕ, ◌^◌, ◌-◌, ◌<◌, max, min, map, cond, nat_le};
    ghost use Rattle.std.specs.List.{range_with_len};
    ghost use Rattle.loads.specs.Steps.{reached, topped};

    /// The largest of none.
    pub(crate) fn new() -> Tops
        ensures { (i : ℕ) → i < 256 → topped result.at i ≡ 0 }
    {
        Tops { at: [0; ROW] }
    }

    /// One more, which grows in these steps. After the last of them it stays as it is, so no later place is read.
    pub(crate) fn raise(&mut self, steps: &Steps)
        ensures { (i : ℕ) → i < 256 → topped self.new.at i ≡ max (topped self.old.at i) (reached steps.now.added i) }
    {
        let mut sum: u64 = 0;
        for (i, added) in steps.added[..=steps.last].iter().enumerate() {
            sum += *added;
            self.at[i] = self.at[i].max(sum);
        }
    }

    /// The largest at each tick of the row, cut at 2^40.
    pub(crate) fn row(&self) -> [u64; ROW]
        ensures { result ≡ map (λ i. min (topped self.now.at i) (2 ^ 40)) (range_with_len 0 256) }
    {
        let mut row = [0; ROW];
        let mut top: u64 = 0;
        for (i, at) in self.at.iter().enumerate() {
            top = top.max(*at);
            row[i] = top.min(CUT);
        }
        row
    }

    /// Raised to `v` from place `first` on.
    pub(crate) fn raise_from(&mut self, first: usize, v: u64)
        requires { first < 256 }
        ensures { (i : ℕ) → i < 256 → topped self.new.at i ≡ max (topped self.old.at i) (cond (nat_le first i) v 0) }
    {
        self.at[first] = self.at[first].max(v);
    }

    /// The largest at each tick of the row from its end to its begin, cut at 2^40.
    pub(crate) fn row_back(&self) -> [u64; ROW]
        ensures { result ≡ map (λ i. min (topped self.now.at (255 - i)) (2 ^ 40)) (range_with_len 0 256) }
    {
        let tops = self.row();
        let mut row = [0; ROW];
        for i in 0..ROW {
            row[i] = tops[ROW - 1 - i];
        }
        row
    }
}
