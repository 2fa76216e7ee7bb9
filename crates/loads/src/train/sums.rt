ghost use Rattle.std.specs.Prelude.{◌≡◌, ◌<◌, ◌≤◌, length};
ghost use Rattle.loads.specs.Train.{cycle, frames_of, sum_along, train_amounts};

use super::RampTrain;
use super::rest::FrameRest;
use super::within::Run;
use crate::ticks::Ticks;

impl RampTrain {
    /// The sum of the gaps, after which the same frame can be released again.
    #[tactic(auto, using(crate::proofs::TrainSums::cycle_sum, crate::proofs::TrainSums::cycle_positive))]
    pub(crate) fn round(&self) -> u64
        ensures same { result ≡ cycle (frames_of self.now) }
        ensures positive { 0 < length (frames_of self.now) → 0 < result }
        ensures near { result ≤ 160000000 }
    {
        self.round
    }

    /// The sum of the costs.
    #[tactic(auto, using(crate::proofs::TrainSums::work_sum))]
    fn work(&self) -> u64
        ensures same { result ≡ sum_along (λ f o. f.cost) 0 (frames_of self.now) }
        ensures small { result ≤ 160000000 }
    {
        self.work
    }

    /// The largest work due by t, over the frames that the circle can begin with. Due by t are the jobs released before
    /// t + 1 less the frame's deadline: one in each whole round of that time, and one more if the frame is released
    /// within the rest of the round.
    pub(crate) fn most_due(&self, t: Ticks) -> u64
        ensures { result ≡ (train_amounts (frames_of self.now)).due t }
    {
        let frames = self.frames();
        if frames.is_empty() {
            return 0;
        }
        let t = t.count();
        let round = self.round();
        let mut rests = [FrameRest::least(); 16];
        let mut whole = 0;
        for (i, f) in frames.iter().enumerate() {
            // Quotient and rest of one division: a function over a closure would fill only the other two questions' rests.
            let time = (t + 1).saturating_sub(u64::from(f.deadline()));
            whole += u64::from(f.cost()) * (time / round);
            // By index: what is written through `iter_mut` a proof does not know afterwards, and a push takes longer.
            rests[i].set(f, time % round);
        }
        let run = Run {
            frames: &rests[..frames.len()],
        };
        whole + run.most_within()
    }

    /// The largest work released before s, over the frames that the circle can begin with: one job of each frame in
    /// each whole round of that time, and one more of each frame that is released within the rest of the round.
    pub(crate) fn most_ready(&self, s: Ticks) -> u64
        ensures { result ≡ (train_amounts (frames_of self.now)).ready s }
    {
        let frames = self.frames();
        if frames.is_empty() {
            return 0;
        }
        let s = s.count();
        let round = self.round();
        let rest = s % round;
        let mut rests = [FrameRest::least(); 16];
        for (i, f) in frames.iter().enumerate() {
            // By index: what is written through `iter_mut` a proof does not know afterwards, and a push takes longer.
            rests[i].set(f, rest);
        }
        let run = Run {
            frames: &rests[..frames.len()],
        };
        self.work() * (s / round) + run.most_within()
    }
}
