ghost use Rattle.std.specs.Prelude.{◌≤◌, length};

use super::rest::FrameRest;

/// At most sixteen frames with their rests, released one after another, each as soon as the gaps allow. Each sum over
/// them is another, and its bound is said where it leaves a function. `Rounds::last_at` says why that goes round anew.
#[derive(Clone, Copy)]
pub(crate) struct Run<'a> {
    pub(crate) frames: &'a [FrameRest],
    ghost few: { length frames.now ≤ 16 },
}

impl<'a> Run<'a> {
    ghost use Rattle.std.specs.Prelude.{◌≡◌, ◌+◌};
    ghost use Rattle.loads.specs.Train.{circle_from, largest_of};
    ghost use Rattle.loads.specs.TrainRests.{gaps, cost_within};

    /// The cost of the frames that are released within their rests, the first frame released at `start`; and the
    /// release that follows the last one.
    fn within_of(&self, start: u64) -> (u64, u64)
        requires { start ≤ 160000000 }
        ensures same { result.0 ≡ cost_within start self.now.frames.now }
        ensures small { result.0 ≤ 160000000 }
        ensures after { result.1 ≡ start + gaps self.now.frames.now }
        ensures near { result.1 ≤ start + 160000000 }
    {
        let mut off = start;
        let mut sum = 0;
        for f in self.frames {
            // Read before the test, so that the loop needs no branch.
            let cost = u64::from(f.frame.cost());
            if off < f.rest {
                sum += cost;
            }
            off += u64::from(f.frame.gap());
        }
        (sum, off)
    }

    /// The cost of the frames released within their rests, of the circle begun at place k.
    #[tactic(auto, using(crate::proofs::TrainSums::cost_append), unfolding(crate::specs::Train::circle_from))]
    fn within_at(&self, k: usize) -> u64
        requires { k ≤ length self.now.frames.now }
        ensures same { result ≡ cost_within 0 (circle_from k self.now.frames.now) }
        ensures small { result ≤ 320000000 }
    {
        let (before, after) = self.frames.split_at(k);
        let (first, off) = Run { frames: after }.within_of(0);
        let (second, _) = Run { frames: before }.within_of(off);
        first + second
    }

    /// The largest cost of the frames released within their rests, over the frames that the circle can begin with.
    pub(crate) fn most_within(&self) -> u64
        ensures same { result ≡ largest_of (λ k. cost_within 0 (circle_from k self.now.frames.now)) (length self.now.frames.now) }
        ensures small { result ≤ 160000000 }
    {
        (0..self.frames.len())
            .map(|k| self.within_at(k))
            .fold(0, u64::max)
    }
}
