ghost use Rattle.std.specs.Prelude.{◌≡◌, ◌≤◌};
ghost use Rattle.loads.specs.TrainRests.{gaps};
ghost use Rattle.loads.specs.TrainRows.{EachSoon};

use super::rest::FrameRest;
use crate::steps::Steps;
use crate::steps::repeat::repeat;
use crate::steps::tops::Tops;
use theory::rows::ROW;

/// Frames that are released again after each round, and a row of ticks that begins at `from`. A frame's rest says here
/// how many ticks after its release it counts, and `base` is the work that there is whichever frame comes first.
#[derive(Clone, Copy)]
pub(super) struct Turns<'a> {
    pub(super) frames: &'a [FrameRest],
    pub(super) round: u64,
    pub(super) from: u64,
    pub(super) base: u64,
    ghost whole: { gaps frames.now ≤ round },
    ghost again: { 1 ≤ round },
    ghost near: { round ≤ 160000000 },
    ghost soon: { from ≤ 100000000 },
    ghost each: { EachSoon frames.now },
}

impl<'a> Turns<'a> {
    ghost use Rattle.std.specs.Prelude.{ℕ, ◌+◌, ◌^◌, ◌<◌, max, min, map, length};
    ghost use Rattle.std.specs.List.{range_with_len};
    ghost use Rattle.theory.specs.Jobs.{All};
    ghost use Rattle.loads.specs.Train.{circle_from, largest_of};
    ghost use Rattle.loads.specs.Steps.{reached, topped};
    ghost use Rattle.loads.specs.TrainRests.{counts};
    ghost use Rattle.loads.specs.TrainRows.{begun, Settled};

    /// Adds the work of the frames, the first one released at `start` and each other one as soon as the gaps allow; and
    /// the release that follows the last one.
    fn add_to(&self, start: u64, until: usize, steps: &mut Steps) -> u64
        requires places { until ≤ 256 }
        requires whole { start + gaps self.now.frames.now ≤ self.now.round }
        ensures more { (i : ℕ) → i < until → min (reached steps.new.added i) 1099511627776 ≡ min (reached steps.old.added i + counts self.now.round (self.now.from + i) start self.now.frames.now) 1099511627776 }
        ensures after { result ≡ start + gaps self.now.frames.now }
    {
        let mut off = start;
        for f in self.frames {
            let cost = u64::from(f.frame.cost());
            steps.add(self.from, off + f.rest, self.round, cost, until);
            off += u64::from(f.frame.gap());
        }
        off
    }

    /// Takes the work of the circle begun at place k into the largest at each tick.
    fn raise_at(&self, k: usize, until: usize, tops: &mut Tops)
        requires inside { k ≤ length self.now.frames.now }
        requires places { until ≤ 256 }
        ensures { (i : ℕ) → i < until → min (topped tops.new.at i) 1099511627776 ≡ max (min (topped tops.old.at i) 1099511627776) (min (self.now.base + counts self.now.round (self.now.from + i) 0 (circle_from k self.now.frames.now)) 1099511627776) }
    {
        let (before, after) = self.frames.split_at(k);
        let mut steps = Steps::new(self.base);
        let off = Turns {
            frames: after,
            round: self.round,
            from: self.from,
            base: self.base,
        }
        .add_to(0, until, &mut steps);
        Turns {
            frames: before,
            round: self.round,
            from: self.from,
            base: self.base,
        }
        .add_to(off, until, &mut steps);
        tops.raise(&steps);
    }

    /// From which place of the row on it repeats, and by how much more: a round later, each tick from there on has the
    /// same work and that much more.
    ///
    /// Once it has begun to count, a frame counts once more in each round, wherever in the circle it is released. So from
    /// the place on at which every frame that begins to count within the row has begun, each circle grows by the same in
    /// each round, by the cost of all frames that have begun, and so does the largest of the circles.
    fn growth(&self) -> (u64, u64)
        ensures near { result.0 ≤ 255 }
        ensures settled { All (Settled (self.now.from + result.0) (self.now.from + 255)) self.now.frames.now }
        ensures grown { result.1 ≡ begun (self.now.from + 255) self.now.frames.now }
    {
        let mut still: u64 = 0;
        let mut more: u64 = 0;
        for f in self.frames {
            if f.rest < self.from + ROW as u64 {
                still = still.max(f.rest.saturating_sub(self.from));
                more += u64::from(f.frame.cost());
            }
        }
        (still, more)
    }

    /// The largest work at each tick of the row, over the frames that the circle can begin with.
    pub(super) fn most_row(&self) -> [u64; ROW]
        requires { 0 < length self.now.frames.now }
        ensures { result ≡ map (λ i. min (largest_of (λ k. self.now.base + counts self.now.round (self.now.from + i) 0 (circle_from k self.now.frames.now)) (length self.now.frames.now)) (2 ^ 40)) (range_with_len 0 256) }
    {
        let (still, more) = self.growth();
        let until = (still + self.round).min(ROW as u64) as usize;
        let mut tops = Tops::new();
        for k in 0..self.frames.len() {
            self.raise_at(k, until, &mut tops);
        }
        let mut row = tops.row();
        repeat(&mut row, until, self.round as usize, more);
        row
    }
}
