ghost use Rattle.std.specs.Prelude.{◌≤◌};
ghost use Rattle.loads.specs.TrainRests.{gaps, EachRest};

use super::RampTrain;
use super::rest::FrameRest;
use crate::marks::later;
use crate::ticks::Ticks;

/// Frames that are released again after each round, and a tick t. The rest of a frame is how many ticks past its last
/// deadline the last tick below t is, where the frame is released at 0.
#[derive(Clone, Copy)]
struct Rounds<'a> {
    frames: &'a [FrameRest],
    round: u64,
    t: u64,
    ghost each: { EachRest round t frames.now },
    ghost whole: { gaps frames.now ≤ round },
    ghost near: { round ≤ 160000000 },
}

impl<'a> Rounds<'a> {
    ghost use Rattle.std.specs.Prelude.{◌≡◌, ◌+◌, ◌-◌, ◌%◌, ◌<◌, length, map};
    ghost use Rattle.theory.specs.Meaning.{last_mark};
    ghost use Rattle.loads.specs.Train.{circle_from, any_of, hits, mark_from};
    ghost use Rattle.loads.specs.TrainRests.{params};

    /// The last deadline below t of one of the frames, first released at `off`: that is `off` ticks later in the round
    /// than at 0.
    fn last_hit(&self, f: &FrameRest, off: u64) -> Option<u64>
        requires within { off < self.now.round }
        requires left { f.now.rest ≡ (self.now.t - 1 - f.now.frame.deadline) % self.now.round }
        ensures { result ≡ last_mark (λ u. hits self.now.round u (off + f.now.frame.deadline)) self.now.t }
    {
        let deadline = u64::from(f.frame.deadline());
        let rest = f.rest;
        if self.t <= off + deadline {
            None
        } else if off <= rest {
            Some(self.t - 1 - (rest - off))
        } else {
            Some(self.t - 1 - (rest + self.round - off))
        }
    }

    /// The last deadline below t, with the first frame released at `start` and each other one as soon as the gaps
    /// allow; and the release that follows the last one.
    fn last_of(&self, start: u64) -> (Option<u64>, u64)
        requires { start + gaps self.now.frames.now ≤ self.now.round }
        ensures same { result.0 ≡ last_mark (λ u. mark_from self.now.round u start (map params self.now.frames.now)) self.now.t }
        ensures after { result.1 ≡ start + gaps self.now.frames.now }
    {
        let mut off = start;
        let mut last = None;
        for f in self.frames {
            last = later(last, self.last_hit(f, off));
            off += u64::from(f.frame.gap());
        }
        (last, off)
    }

    /// The last deadline below t of the circle begun at place k. `Run::within_at` goes round in the same way: one
    /// function for both would take both steps as closures and ask for bounds on what they give, which is no plainer.
    fn last_at(&self, k: usize) -> Option<u64>
        requires { k ≤ length self.now.frames.now }
        ensures { result ≡ last_mark (λ u. mark_from self.now.round u 0 (map params (circle_from k self.now.frames.now))) self.now.t }
    {
        let (before, after) = self.frames.split_at(k);
        let after = Rounds {
            frames: after,
            round: self.round,
            t: self.t,
        };
        let before = Rounds {
            frames: before,
            round: self.round,
            t: self.t,
        };
        let (first, off) = after.last_of(0);
        let (second, _) = before.last_of(off);
        later(first, second)
    }

    /// The last deadline below t, over the frames that the circle can begin with.
    fn last_over(&self) -> Option<u64>
        ensures { result ≡ last_mark (λ u. any_of (λ k. mark_from self.now.round u 0 (map params (circle_from k self.now.frames.now))) (length self.now.frames.now)) self.now.t }
    {
        (0..self.frames.len())
            .map(|k| self.last_at(k))
            .fold(None, later)
    }
}

impl RampTrain {
    ghost use Rattle.std.specs.Prelude.{◌≡◌};
    ghost use Rattle.theory.specs.Meaning.{last_mark};
    ghost use Rattle.loads.specs.Train.{frames_of, train_amounts};

    /// The last mark below t.
    pub(crate) fn last_below(&self, t: Ticks) -> Option<u64>
        ensures { result ≡ last_mark (train_amounts (frames_of self.now)).mark t }
    {
        let frames = self.frames();
        if frames.is_empty() {
            return None;
        }
        let t = t.count();
        let round = self.round();
        let mut rests = [FrameRest::least(); 16];
        for (i, f) in frames.iter().enumerate() {
            // By index: what is written through `iter_mut` a proof does not know afterwards, and a push takes longer.
            rests[i].set(f, t.saturating_sub(1 + u64::from(f.deadline())) % round);
        }
        let rounds = Rounds {
            frames: &rests[..frames.len()],
            round,
            t,
        };
        rounds.last_over()
    }
}
